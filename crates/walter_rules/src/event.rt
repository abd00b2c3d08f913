//! What happens to a site: it is given something, stops or restarts.
use walter_base::{Call, Packet, SiteId};

/// What is given to a site that is up.
#[derive(Debug, Drop)]
pub enum Input {
    /// A client, by its number in the scenario, sends a frame.
    Call {
        client: u32,
        call: Call,
    },
    /// A packet of another site comes, by its number among those that this one has put out to the site, from 1.
    Deliver {
        from: SiteId,
        number: u32,
        packet: Packet,
    },
    /// The next commit of another site is to be committed here.
    Advance {
        from: SiteId,
    },
    /// The site is to say again what its peers may have missed.
    Tick,
    /// The site is to journal in the second format from now on.
    Upgrade,
}

/// What happens to a site.
#[derive(Debug, Drop)]
pub enum Event {
    /// It is given something.
    Given(Input),
    /// It loses its memory.
    Stop,
    /// It is to come up.
    Restart,
}
