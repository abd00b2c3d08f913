//! The rows that the transactions of a log spell, in a history by objects, and the counts of those that are committed;
//! and what is read of both.
#![tactic(auto)]

mod committing;
mod reading;
mod rows;

pub use committing::count_commit;
pub use reading::{count_read, counts_read, value_read};
pub use rows::{append_all, fold, make_room, rows_for, rows_told};
