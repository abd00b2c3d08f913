//! A book of records on a disk: a journal that can begin anew. Of two areas one is live; a pack of what it has goes
//! into the other, which one byte then makes live.
#![tactic(auto)]

mod book;
mod laws;
mod loading;
mod packing;
mod reading;
mod unpacking;

pub use book::Book;
pub use laws::{books_differ, headers_tell, packs_are_shorter, switch_keeps};
pub use loading::load;
