//! The report of a run, its trace, and its summary, as text that is written piece by piece.
#![tactic(auto)]

mod clients;
mod columns;
mod frame;
mod laws;
mod logs;
mod overview;
mod replies;
mod sites;
mod summaries;
mod text;
mod told;
mod traces;

pub use laws::as_it_stands;
pub use summaries::write_summary;
pub use text::write_report;
pub use traces::word_of_packet;
