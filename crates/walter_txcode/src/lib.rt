//! Transactions, vectors and objects as bytes: one spelling for each, and decoders that take exactly the spellings.
#![tactic(auto)]

mod decoding;
mod encoding;
mod fault;
mod laws;
mod objects;
mod updates;
mod vectors;

pub use decoding::{decode, read_numbered, read_transaction};
pub use encoding::{append, encode, size_in, write_numbered};
pub use fault::DecodeFault;
pub use laws::{no_spelling_in_both, one_spelling, size_of_spelling};
pub use objects::{read_objects, write_objects};
pub use vectors::{read_vector, write_vector};
