//! What comes to a site of what is said to happen.
ghost use Rattle.std.specs.Prelude.{◌≡◌, ◌<◌, length, false, IfOk};
ghost use Rattle.walter_world.specs.Events.{IsWithin};
ghost use Rattle.walter_world.specs.Happenings.{IsHappening, IsPost};
ghost use Rattle.walter_world.specs.Worlds.{trails_of};

use crate::events::What;
use crate::posted::packet_to;
use crate::seat::Seat;
use std::alloc::Global;
use walter_base::{Mem, NoMemory, SiteId};
use walter_conn::read_call;
use walter_rules::{Event, Input};

/// An event that comes to a site, the stamp of the packet that it brings, and whether the record in flight is found.
#[derive(Drop)]
pub(crate) struct Happening {
    pub event: Event,
    pub put: u64,
    pub keeps: bool,
}

// An event that brings no packet, and doesn't ask for the record in flight.
fn alone(event: Event) -> Happening
    ensures { result ≡ record { event = event; put = 0; keeps = false } }
{
    Happening {
        event,
        put: 0,
        keeps: false,
    }
}

/// What comes to a site, unless it is a packet that was never put out.
pub(crate) fn happening_of(
    alloc: Global,
    seats: &[Seat],
    site: SiteId,
    what: What,
) -> Mem<Option<Happening>>
    requires { IsWithin (length seats.now) what }
    ensures { IfOk result (IsHappening (trails_of seats.now) site what) }
{
    match what {
        What::Call { client, body } => {
            let Ok(call) = read_call(alloc, body.as_slice()) else {
                return Err(NoMemory);
            };
            Ok(Some(alone(Event::Given(Input::Call { client, call }))))
        }
        What::Deliver { from, number } => delivery(seats, site, from, number),
        What::Advance { from } => Ok(Some(alone(Event::Given(Input::Advance { from })))),
        What::Tick => Ok(Some(alone(Event::Given(Input::Tick)))),
        What::Upgrade => Ok(Some(alone(Event::Given(Input::Upgrade)))),
        What::Stop => Ok(Some(alone(Event::Stop))),
        What::Restart { kept } => Ok(Some(Happening {
            event: Event::Restart,
            put: 0,
            keeps: kept,
        })),
    }
}

// The packet of a number that a site has put out to another.
fn delivery(seats: &[Seat], to: SiteId, from: SiteId, number: u32) -> Mem<Option<Happening>>
    requires { from.0 < length seats.now }
    ensures { IfOk result (IsPost (trails_of seats.now) to from number) }
{
    let Some((put, packet)) = packet_to(&seats[usize::from(from.0)].entries, to, number)? else {
        return Ok(None);
    };
    let input = Input::Deliver {
        from,
        number,
        packet,
    };
    Ok(Some(Happening {
        event: Event::Given(input),
        put,
        keeps: false,
    }))
}
