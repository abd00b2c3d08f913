//! The calls that a number makes, and the steps that play them.
ghost use Rattle.std.specs.Prelude.{◌≡◌, ◌≤◌, All, IfOk};
ghost use Rattle.walter_request.specs.Requests.{FitsFrame};
ghost use Rattle.walter_make.specs.Calls.{made_calls};
ghost use Rattle.walter_make.specs.Made.{steps_of};

use crate::draws::{ClientCall, Draws};
use std::alloc::Global;
use walter_base::{Mem, SiteId};
use walter_scenario::Step;

// The calls of a number, in order.
pub(crate) fn draw_calls(alloc: Global, number: u64, calls: u32) -> Mem<Vec<ClientCall>>
    requires { calls ≤ 20000 }
    ensures calls { IfOk result (λ list. list.items ≡ made_calls number calls) }
    ensures fit { IfOk result (λ list. All (λ call. FitsFrame call.request) list.items) }
{
    let mut draws = Draws::new(number);
    let mut client_calls = Vec::new(alloc);
    for _call in 0..calls {
        client_calls.push(draws.next_call(alloc)?)?;
    }
    Ok(client_calls)
}

// Behind each call each site is pumped.
pub(crate) fn steps_of(alloc: Global, calls: &[ClientCall]) -> Mem<Vec<Step>>
    ensures { IfOk result (λ steps. steps.items ≡ steps_of calls.now) }
{
    let mut steps = Vec::new(alloc);
    for call in calls {
        steps.push(Step::Call(call.client))?;
        steps.push(Step::Pump(SiteId(0)))?;
        steps.push(Step::Pump(SiteId(1)))?;
        steps.push(Step::Pump(SiteId(2)))?;
    }
    Ok(steps)
}
