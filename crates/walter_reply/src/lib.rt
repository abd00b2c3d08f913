//! What a client is answered, as bytes: one spelling for each reply, and a decoder that takes exactly the spellings.
#![tactic(auto)]

mod decoding;
mod encoding;
mod fault;
mod laws;

pub use decoding::decode;
pub use encoding::{append, encode, size_of};
pub use fault::ReplyFault;
pub use laws::{one_reading, short_replies_fit, size_of_spelling, which_fit};
