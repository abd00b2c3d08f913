//! The end of a lane at its receiver.
ghost use Rattle.std.specs.Prelude.{◌≡◌, ◌+◌, ◌-◌, ◌<◌, ◌≤◌, ◌⊎◌, ◌++◌, ◌↔◌, length, take, drop, vec_len, vec_capacity, OnErr, IfSome, IsNone, Some, slice_get};
ghost use mathlib.Core.List.{IsPrefix};
ghost use Rattle.rtrb.specs.Ring.{received, known_items, SameConsumer};

use crate::outbound::MOST_PACKETS;
use crate::posted::Posted;
use rtrb::Consumer;
use std::marker::Model;
use walter_base::Mem;

/// The end of a lane at its receiver. Contracts see what has arrived, in order.
#[derive(Drop)]
pub struct Inbound {
    pub(crate) consumer: Consumer<Posted>,
    pub(crate) arrived: Vec<Posted>,
}

impl Model for Inbound {
    ghost use Rattle.std.specs.Prelude.{◌≡◌, ◌≤◌, vec_len};
    ghost use Rattle.rtrb.specs.Ring.{received};
    ghost use Rattle.walter_lane.specs.Rings.{ring_taken_from};
    ghost use Rattle.walter_lane.specs.Lanes.{Receiving, receiving_code};

    ghost Value = { Receiving };

    ghost coded = { receiving_code };

    ghost view = { λ i. record { ring = ring_taken_from i.consumer; arrived = i.arrived.items } };

    ghost invariant = { λ i. (i.arrived.items ≡ received i.consumer) × (vec_len i.arrived ≤ 4294967295) };
}

impl Inbound {
    /// Moves what the ring is seen to hold to what has arrived. For want of memory it moves nothing.
    pub fn poll(&mut self) -> Mem<()>
        ensures ring { self.new.ring ≡ self.old.ring }
        ensures more { IsPrefix self.old.arrived self.new.arrived }
        ensures err { OnErr result (self.new ≡ self.old) }
    {
        let waiting = self.consumer.slots();
        let count = waiting.min(MOST_PACKETS - self.arrived.len());
        self.arrived.reserve(count)?;
        take_known(&mut self.consumer, &mut self.arrived, count);
        Ok(())
    }

    /// How many packets have arrived.
    pub fn count(&self) -> u32
        ensures { result ≡ length self.now.arrived }
    {
        self.arrived.len() as u32
    }

    /// The packet of this number among those that have arrived, from 1.
    pub fn arrived(&self, number: usize) -> Option<&Posted>
        ensures none { IsNone result ↔ ((number ≡ 0) ⊎ (length self.now.arrived < number)) }
        ensures some { IfSome result (λ p. (0 < number) × (slice_get self.now.arrived (number - 1) ≡ Some p.now)) }
    {
        if number == 0 {
            return None;
        }
        self.arrived.get(number - 1)
    }
}

// Moves items that are known to be there.
pub(crate) fn take_known(consumer: &mut Consumer<Posted>, arrived: &mut Vec<Posted>, count: usize)
    requires known { count ≤ length (known_items consumer.old) }
    requires room { vec_len arrived.old + count ≤ vec_capacity arrived.old }
    ensures ring { SameConsumer consumer.old consumer.new }
    ensures received { received consumer.new ≡ received consumer.old ++ take count (known_items consumer.old) }
    ensures known { known_items consumer.new ≡ drop count (known_items consumer.old) }
    ensures arrived { arrived.new.items ≡ arrived.old.items ++ take count (known_items consumer.old) }
{
    for _ in 0..count {
        arrived.push_reserved(consumer.pop_known());
    }
}
