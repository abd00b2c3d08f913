//! Both ends of a lane at hand: they are made, meet and are compared.
ghost use Rattle.std.specs.Prelude.{◌≡◌, [], length, OnOk, OnErr, IfOk};
ghost use mathlib.Core.List.{IsPrefix};

use crate::inbound::{Inbound, take_known};
use crate::outbound::Outbound;
use rtrb::RingBuffer;
use std::alloc::Global;
use walter_base::Mem;

/// How many packets are put on a lane, at the least, before one may be given back.
const LANE_PLACES: usize = 1024;

/// The two ends of a new lane.
pub fn pair(alloc: Global) -> Mem<(Outbound, Inbound)>
    ensures ring { IfOk result (λ ends. ends.0.ring ≡ ends.1.ring) }
    ensures empty { IfOk result (λ ends. (ends.0.put ≡ []) × (ends.0.met ≡ 0) × (ends.1.arrived ≡ [])) }
{
    let (producer, consumer) = RingBuffer::new(alloc, LANE_PLACES)?;
    let outbound = Outbound {
        producer,
        count: 0,
        met: 0,
    };
    let inbound = Inbound {
        consumer,
        arrived: Vec::new(alloc),
    };
    Ok((outbound, inbound))
}

/// Where both ends are at hand: all that was put arrives. From then on 1,024 more can be put.
pub fn meet(outbound: &mut Outbound, inbound: &mut Inbound) -> Mem<()>
    requires { outbound.old.ring ≡ inbound.old.ring }
    ensures rings { (outbound.new.ring ≡ outbound.old.ring) × (inbound.new.ring ≡ inbound.old.ring) }
    ensures put { outbound.new.put ≡ outbound.old.put }
    ensures more { IsPrefix inbound.old.arrived inbound.new.arrived }
    ensures ok { OnOk result ((inbound.new.arrived ≡ outbound.old.put)
        × (outbound.new.met ≡ length outbound.old.put)) }
    ensures err { OnErr result ((inbound.new ≡ inbound.old) × (outbound.new ≡ outbound.old)) }
{
    let count = inbound.consumer.slots_beside(&mut outbound.producer);
    inbound.arrived.reserve(count)?;
    take_known(&mut inbound.consumer, &mut inbound.arrived, count);
    outbound.producer.slots_beside(&mut inbound.consumer);
    outbound.met = outbound.count;
    Ok(())
}

/// Where both ends are at hand: what has arrived is a beginning of what was put. It changes nothing, and takes no memory.
pub fn compare(outbound: &mut Outbound, inbound: &mut Inbound)
    requires { outbound.old.ring ≡ inbound.old.ring }
    ensures same { (outbound.new ≡ outbound.old) × (inbound.new ≡ inbound.old) }
    ensures begins { IsPrefix inbound.old.arrived outbound.old.put }
{
    inbound.consumer.slots_beside(&mut outbound.producer);
}
