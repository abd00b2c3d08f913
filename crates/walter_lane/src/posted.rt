//! A packet as it goes over a lane.
use walter_packet::Framed;

/// A packet with the stamp of the event that put it out.
#[derive(Debug, Drop)]
pub struct Posted {
    pub stamp: u64,
    pub framed: Framed,
}
