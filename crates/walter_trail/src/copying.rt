//! Copies of entries.
ghost use Rattle.std.specs.Prelude.{◌≡◌, IfOk};

use walter_base::{Call, Mem};
use walter_rules::{Came, Entry, Event, Input, Outcome};

/// A copy of an entry.
pub(crate) fn copy_entry(entry: &Entry) -> Mem<Entry>
    ensures { IfOk result (λ copy. copy ≡ entry.now) }
{
    Ok(Entry {
        stamp: entry.stamp,
        event: copy_event(&entry.event)?,
        came: copy_came(&entry.came)?,
    })
}

fn copy_event(event: &Event) -> Mem<Event>
    ensures { IfOk result (λ copy. copy ≡ event.now) }
{
    match event {
        Event::Given(input) => Ok(Event::Given(copy_input(input)?)),
        Event::Stop => Ok(Event::Stop),
        Event::Restart => Ok(Event::Restart),
    }
}

fn copy_input(input: &Input) -> Mem<Input>
    ensures { IfOk result (λ copy. copy ≡ input.now) }
{
    match input {
        Input::Call { client, call } => Ok(Input::Call {
            client: *client,
            call: copy_call(call)?,
        }),
        Input::Deliver {
            from,
            number,
            packet,
        } => Ok(Input::Deliver {
            from: *from,
            number: *number,
            packet: packet.clone()?,
        }),
        Input::Advance { from } => Ok(Input::Advance { from: *from }),
        Input::Tick => Ok(Input::Tick),
        Input::Upgrade => Ok(Input::Upgrade),
    }
}

fn copy_call(call: &Call) -> Mem<Call>
    ensures { IfOk result (λ copy. copy ≡ call.now) }
{
    match call {
        Ok(request) => Ok(Ok(request.clone()?)),
        Err(bad) => Ok(Err(*bad)),
    }
}

fn copy_came(came: &Came) -> Mem<Came>
    ensures { IfOk result (λ copy. copy ≡ came.now) }
{
    Ok(Came {
        outcome: copy_outcome(&came.outcome)?,
        kept: came.kept.clone()?,
        wrote: came.wrote.clone()?,
        flight: came.flight.clone()?,
        sends: came.sends.clone()?,
        dropped: came.dropped,
    })
}

fn copy_outcome(outcome: &Outcome) -> Mem<Outcome>
    ensures { IfOk result (λ copy. copy ≡ outcome.now) }
{
    match outcome {
        Outcome::Replied(reply) => Ok(Outcome::Replied(reply.clone()?)),
        Outcome::Taken => Ok(Outcome::Taken),
        Outcome::Passed => Ok(Outcome::Passed),
        Outcome::Failed => Ok(Outcome::Failed),
        Outcome::Full { need, left } => Ok(Outcome::Full {
            need: *need,
            left: *left,
        }),
        Outcome::Memory => Ok(Outcome::Memory),
        Outcome::Down => Ok(Outcome::Down),
        Outcome::Refused => Ok(Outcome::Refused),
    }
}
