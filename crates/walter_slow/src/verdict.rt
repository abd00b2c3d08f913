//! What a vote comes to.
use walter_base::Conflict;

/// What a vote comes to.
#[derive(Clone, Copy, Debug, PartialEq, Eq)]
pub enum Verdict {
    /// The slow commit stays undecided.
    Waiting,
    /// The last YES that was missing is there.
    Commit,
    /// A site said NO, over this conflict.
    Abort(Conflict),
    /// No such slow commit is being decided, or it doesn't ask the site.
    Unknown,
}
