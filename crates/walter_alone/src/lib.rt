//! What holds of each right trail by itself.
#![tactic(auto)]

mod laws;

pub use laws::{
    a_client_with_a_transaction_is_owed_nothing, a_restart_keeps_what_is_journaled,
    right_trails_keep_promises,
};
