//! What a site puts on its lanes to the other sites, and what arrives on those from them.
#![tactic(auto)]

mod outbox;

pub use outbox::put_out;
