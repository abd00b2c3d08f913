//! The end of a lane at its sender.
ghost use Rattle.std.specs.Prelude.{◌≡◌, ◌+◌, ◌≤◌, ◌⊎◌, ◌++◌, ◌∷◌, [], length, OnOk, OnErr, IfErr, IsErr};

use crate::posted::Posted;
use rtrb::{Producer, PushError};
use std::marker::Model;

/// How many packets a lane carries at most.
pub(crate) const MOST_PACKETS: usize = 4_294_967_295;

/// The end of a lane at its sender. Contracts see all packets that were ever put, and how many of them when the two ends
/// last met.
#[derive(Drop)]
pub struct Outbound {
    pub(crate) producer: Producer<Posted>,
    pub(crate) count: usize,
    pub(crate) met: usize,
}

impl Model for Outbound {
    ghost use Rattle.std.specs.Prelude.{◌≡◌, ◌+◌, ◌≤◌, length};
    ghost use Rattle.rtrb.specs.Ring.{sent, known_free, producer_capacity};
    ghost use Rattle.walter_lane.specs.Rings.{ring_put_to};
    ghost use Rattle.walter_lane.specs.Lanes.{Sending, sending_code};

    ghost Value = { Sending };

    ghost coded = { sending_code };

    ghost view = { λ o. record { ring = ring_put_to o.producer; put = sent o.producer; met = o.met } };

    ghost invariant = { λ o. (o.count ≡ length (sent o.producer)) × (o.met ≤ o.count)
        × (producer_capacity o.producer ≡ 1024) × (1024 + o.met ≤ known_free o.producer + o.count)
        × (o.count ≤ 4294967295) };
}

impl Outbound {
    /// Puts one packet on the lane, or gives it back. It takes no memory.
    pub fn put(&mut self, item: Posted) -> Result<(), Posted>
        ensures ok { OnOk result (self.new ≡ record self.old { put = self.old.put ++ item ∷ [] }) }
        // It comes back only where 1,024 were put since the lane was made or its ends last met, or where it is spent.
        ensures back { IfErr result (λ back. (back ≡ item) × (self.new ≡ self.old)) }
        ensures full_or_spent { OnErr result ((self.old.met + 1024 ≤ length self.old.put)
            ⊎ (length self.old.put ≡ 4294967295)) }
        ensures spent { length self.old.put ≡ 4294967295 → IsErr result }
    {
        if self.count == MOST_PACKETS {
            return Err(item);
        }
        match self.producer.push(item) {
            Ok(()) => {
                self.count += 1;
                Ok(())
            }
            Err(PushError::Full(back)) => Err(back),
        }
    }
}
