//! What an event comes to: an answer, a change, or why there is none.
use walter_base::Reply;

/// What an event came to.
#[derive(Debug, Drop)]
pub enum Outcome {
    /// The client is answered.
    Replied(Reply),
    /// What the site knows changed.
    Taken,
    /// Nothing changed.
    Passed,
    /// A call on the disk failed, and the site is down.
    Failed,
    /// The journal has no place for the record: so many bytes are needed, and so many left.
    Full { need: u64, left: u64 },
    /// Memory ran out, and nothing changed.
    Memory,
    /// The site is down already.
    Down,
    /// The journal is not one that such a site left. No site whose disk tells what it holds comes to this.
    Refused,
}
