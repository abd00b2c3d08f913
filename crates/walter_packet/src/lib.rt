//! Packets as bytes: one spelling for each, and a decoder that takes exactly the spellings; and `Framed`, bytes that
//! spell one.
#![tactic(auto)]

mod answers;
mod decoding;
mod encoding;
mod framed;
mod laws;

pub use decoding::decode;
pub use encoding::encode;
pub use framed::Framed;
pub use laws::{one_spelling, size_of_spelling};
