//! What may happen to a site without a disk, and with which fate.
use walter_base::{Bytes, SiteId};

/// What becomes of the record that an event brings.
#[derive(Clone, Copy, Debug, PartialEq, Eq)]
pub enum Fate {
    /// It is stable.
    Fine,
    /// It meets a fault, and is in flight; the site is down.
    Broken,
}

/// What happens to a site.
#[derive(Debug, Drop)]
pub enum What {
    /// A client, by its number, sends a frame with this body.
    Call { client: u32, body: Bytes },
    /// The packet of this number, from 1, among those that another site has put out to this one comes.
    Deliver { from: SiteId, number: u32 },
    /// The next commit of another site is to be committed here.
    Advance { from: SiteId },
    /// The site is to say again what its peers may have missed.
    Tick,
    /// Its records are to be in the second format from now on.
    Upgrade,
    /// It loses its memory.
    Stop,
    /// It is to come up, and finds the record in flight, if there is one, or doesn't.
    Restart { kept: bool },
}

/// What happens, where, and with which fate.
#[derive(Debug, Drop)]
pub struct WorldEvent {
    pub site: SiteId,
    pub what: What,
    pub fate: Fate,
}
