//! A text on its way to a sink: pages, and the parts that lines are made of.
#![tactic(auto)]

mod fault;
mod hexing;
mod lists;
mod page;
mod parts;

pub use fault::WriteFault;
pub use hexing::put_hex;
pub use lists::{comma_behind, put_counts};
pub use page::Page;
pub use parts::{Part, put_parts};
