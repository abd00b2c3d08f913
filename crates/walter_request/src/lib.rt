//! What a client asks, as bytes: one spelling for each request, and a decoder that takes exactly the spellings.
#![tactic(auto)]

mod decoding;
mod encoding;
mod fault;
mod laws;

pub use decoding::decode;
pub use encoding::encode;
pub use fault::RequestFault;
pub use laws::{one_reading, size_of_spelling};
