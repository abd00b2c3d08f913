//! A journal on a disk: bodies of bytes, one behind another, of which none is lost once it was told that it is there.
#![tactic(auto)]

mod bodies;
mod fault;
mod filling;
mod journal;
mod layout;
mod loading;

pub use bodies::Bodies;
pub use fault::{AppendFault, JournalFault};
pub use filling::fill;
pub use journal::Journal;
pub use layout::{bodies_behind, bodies_of, header_of, layouts_differ, record_at};
pub use loading::{begin, load, settle_and_read};
