//! What an audit finds, and what it names: a record, and a reason.
use crate::item::Item;
use walter_base::SiteId;

/// A record, by its site and its place in that site's journal, from 0.
#[derive(Clone, Copy, Debug, PartialEq, Eq)]
pub struct Named {
    pub site: SiteId,
    pub index: u64,
}

/// Why journals tell no history, in the order in which reasons are looked for.
#[derive(Clone, Copy, Debug, PartialEq, Eq)]
pub enum Reason {
    /// A body spells no record, or one that can't follow.
    Unreadable,
    /// A commit was received, or seen, that its site hasn't made.
    Missing,
    /// A commit that was received isn't as its site made it.
    Differs,
    /// A transaction was committed twice.
    Twice,
    /// The start of a commit is none that its site ever stood at.
    Start,
    /// Two commits write one object, and neither has seen the other.
    Conflict,
    /// Sites wait for each other's commits in a circle.
    Cycle,
}

/// What an audit finds of the journals of all sites.
#[derive(Debug, Drop)]
pub enum Finding {
    /// They tell a legal history, in this order.
    Yes(Vec<(SiteId, Item)>),
    /// They tell none, for the first reason that stands, of its first pair of records.
    No { reason: Reason, a: Named, b: Named },
}
