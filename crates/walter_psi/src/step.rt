//! The steps of a history, and what reads and clients are answered in it.
use walter_base::{Cause, Counts, ObjId, SharedBytes, SiteId, Tid, Update, Updates, Version};

/// What a read answered.
#[derive(Debug, Drop)]
pub enum Answer {
    /// The value of a regular object, where it has one.
    Value(Option<SharedBytes>),
    /// The counts of a set.
    Counts(Counts),
    /// The count of one id of a set.
    Count(u64, i64),
}

/// How far a transaction has come, as a client is told.
#[derive(Clone, Copy, Debug, PartialEq, Eq)]
pub enum Level {
    NotCommitted,
    Committed,
    Durable,
    Visible,
}

/// What a client is told of a transaction that is over.
#[derive(Clone, Copy, Debug, PartialEq, Eq)]
pub enum Notice {
    /// It is committed, as this version.
    Version(Version),
    /// It has come this far.
    Level(Level),
}

/// A step of a history. A step but `Start` and `Arrive` happens at the site of its transaction.
#[derive(Debug, Drop)]
pub enum Step {
    /// The transaction starts at the site.
    Start(Tid, SiteId),
    /// It does an update, which nobody else sees yet.
    Op(Tid, Update),
    /// It reads the object, and is answered.
    Read(Tid, ObjId, Answer),
    /// It commits at its own site, with these updates.
    Commit(Tid, Updates),
    /// It is committed at another site.
    Arrive(Tid, SiteId),
    /// It is aborted, for this cause.
    Abort(Tid, Cause),
    /// A client is told of it.
    Told(Tid, Notice),
}
