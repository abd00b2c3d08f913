//! The records of a journal as bytes: one spelling for each, and a decoder that takes exactly the spellings.
#![tactic(auto)]

mod decoding;
mod encoding;
mod laws;

pub use decoding::decode;
pub use encoding::{append, encode};
pub use laws::{one_spelling, size_of_spelling};
