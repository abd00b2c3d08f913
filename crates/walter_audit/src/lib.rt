//! The audit of journals: whether the records of all sites tell a history that the isolation allows, in which order,
//! and if not, why not.
#![tactic(auto)]

mod auditing;
mod circling;
mod conflicting;
mod content;
mod differing;
mod equal;
mod finding;
mod item;
mod laws;
mod looking;
mod missing;
mod pairing;
mod question;
mod queueing;
mod reading;
mod starting;
mod told;
mod twice;
mod walking;

pub use auditing::audit;
pub use circling::find_circle;
pub use conflicting::first_conflict;
pub use content::Content;
pub use differing::first_differing;
pub use equal::is_equal;
pub use finding::{Finding, Named, Reason};
pub use item::{Item, Queue};
pub use laws::{journals_of_runs_are_clear, orders_tell_histories};
pub use looking::see_last;
pub use missing::{first_missing, made};
pub use pairing::{Pairing, first_pair};
pub use question::{Question, first_of};
pub use queueing::queue_of;
pub use reading::read_all;
pub use starting::first_unstarted;
pub use told::Told;
pub use twice::first_twice;
pub use walking::{Walk, first_left, take_items};
