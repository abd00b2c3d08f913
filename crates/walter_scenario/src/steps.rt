//! The steps that values spell.
ghost use Rattle.std.specs.Prelude.{◌≡◌, ◌≢◌, ◌<◌, ◌≤◌, ◌^◌, ◌∷◌, [], ℕ, codes, IfSome, IfNone, IfOk, IfErr};
ghost use Rattle.serde_json.specs.Data.{string};
ghost use Rattle.serde_json.specs.View.{view};
ghost use Rattle.walter_scenario.specs.declared.scenario.Step.{Step};
ghost use Rattle.walter_scenario.specs.Faults.{IsStepsFault};
ghost use Rattle.walter_scenario.specs.Fronts.{ListsSteps};
ghost use Rattle.walter_scenario.specs.Parts.{list, whole, step_spelled, ArePeers, IsStep};

use crate::arms::arm_from;
use crate::details::step_detail;
use crate::place::{Place, ReadFault};
use crate::scenario::Step;
use crate::values::{four_of, items_of, pair_of, site_of, string_of, triple_of, whole_of};
use serde_json::Value;
use std::alloc::Global;
use walter_base::SiteId;

/// The client that the value names, of so many.
fn client_of(clients: usize, value: &Value) -> Option<u32>
    requires { clients ≤ 2 ^ 32 }
    ensures there { IfSome result (λ client. client < clients) }
    ensures some { IfSome result (λ client. view value.now ≡ whole client) }
    ensures none { IfNone result
        ((client : ℕ) → client < clients → view value.now ≢ whole client) }
{
    let client = u32::try_from(whole_of(value)?).ok()?;
    (u64::from(client) < clients as u64).then_some(client)
}

/// The two sites that the values name, of so many. They are different.
fn peers_of(sites: u8, site: &Value, other: &Value) -> Option<(SiteId, SiteId)>
    ensures there { IfSome result (λ found. ArePeers sites found.0.0 found.1.0) }
    ensures some { IfSome result
        (λ found. (view site.now ≡ whole found.0.0) × (view other.now ≡ whole found.1.0)) }
    ensures none { IfNone result ((m n : ℕ) → ArePeers sites m n
        → view site.now ≡ whole m → view other.now ≢ whole n) }
{
    let site = site_of(sites, site)?;
    let other = site_of(sites, other)?;
    (site != other).then_some((site, other))
}

/// The number of a packet that the value is.
fn packet_number_of(value: &Value) -> Option<u32>
    ensures first { IfSome result (λ number. 1 ≤ number) }
    ensures some { IfSome result (λ number. view value.now ≡ whole number) }
    ensures none { IfNone result
        ((number : ℕ) → 1 ≤ number → number < 2 ^ 32 → view value.now ≢ whole number) }
{
    let number = u32::try_from(whole_of(value)?).ok()?;
    (number >= 1).then_some(number)
}

/// The step that a word and a number spell.
fn step_of_one(sites: u8, clients: usize, word: &Value, number: &Value) -> Option<Step>
    requires { clients ≤ 2 ^ 32 }
    ensures there { IfSome result (IsStep sites clients) }
    ensures some { IfSome result
        (λ step. list (view word.now ∷ view number.now ∷ []) ≡ step_spelled step) }
    ensures none { IfNone result ((step : Step) → IsStep sites clients step
        → list (view word.now ∷ view number.now ∷ []) ≢ step_spelled step) }
{
    // The words are compared one behind the other, so those that most steps have come first.
    match string_of(word)? {
        "call" => Some(Step::Call(client_of(clients, number)?)),
        "pump" => Some(Step::Pump(site_of(sites, number)?)),
        "tick" => Some(Step::Tick(site_of(sites, number)?)),
        "stop" => Some(Step::Stop(site_of(sites, number)?)),
        "restart" => Some(Step::Restart(site_of(sites, number)?)),
        "upgrade" => Some(Step::Upgrade(site_of(sites, number)?)),
        _ => None,
    }
}

/// The step that a word and two numbers spell.
fn step_of_two(sites: u8, word: &Value, at: &Value, from: &Value) -> Option<Step>
    ensures there { IfSome result (λ step. (clients : ℕ) → IsStep sites clients step) }
    ensures some { IfSome result
        (λ step. list (view word.now ∷ view at.now ∷ view from.now ∷ []) ≡ step_spelled step) }
    ensures none { IfNone result ((clients : ℕ) (step : Step) → IsStep sites clients step
        → list (view word.now ∷ view at.now ∷ view from.now ∷ []) ≢ step_spelled step) }
{
    if string_of(word)? != "advance" {
        return None;
    }
    let (at, from) = peers_of(sites, at, from)?;
    Some(Step::Advance { at, from })
}

/// The step that hands over the packet that three values name.
fn delivery_of(sites: u8, to: &Value, from: &Value, number: &Value) -> Option<Step>
    ensures there { IfSome result (λ step. (clients : ℕ) → IsStep sites clients step) }
    ensures some { IfSome result
        (λ step. list (string (codes "deliver") ∷ view to.now ∷ view from.now ∷ view number.now ∷ [])
        ≡ step_spelled step) }
    ensures none { IfNone result ((clients : ℕ) (step : Step) → IsStep sites clients step
        → list (string (codes "deliver") ∷ view to.now ∷ view from.now ∷ view number.now ∷ [])
        ≢ step_spelled step) }
{
    let (to, from) = peers_of(sites, to, from)?;
    let number = packet_number_of(number)?;
    Some(Step::Deliver { to, from, number })
}

/// The step that arms a disk as three values say.
#[tactic(auto, using(crate::proofs::Scripts::arms_nothing))]
fn arming_of(sites: u8, site: &Value, nth: &Value, choice: &Value) -> Option<Step>
    ensures there { IfSome result (λ step. (clients : ℕ) → IsStep sites clients step) }
    ensures some { IfSome result
        (λ step. list (string (codes "arm") ∷ view site.now ∷ view nth.now ∷ view choice.now ∷ [])
        ≡ step_spelled step) }
    ensures none { IfNone result ((clients : ℕ) (step : Step) → IsStep sites clients step
        → list (string (codes "arm") ∷ view site.now ∷ view nth.now ∷ view choice.now ∷ [])
        ≢ step_spelled step) }
{
    Some(Step::Arm(arm_from(sites, site, nth, choice)?))
}

/// The step that a word and three numbers spell.
fn step_of_three(
    sites: u8,
    word: &Value,
    first: &Value,
    second: &Value,
    third: &Value,
) -> Option<Step>
    ensures there { IfSome result (λ step. (clients : ℕ) → IsStep sites clients step) }
    ensures some { IfSome result
        (λ step. list (view word.now ∷ view first.now ∷ view second.now ∷ view third.now ∷ [])
        ≡ step_spelled step) }
    ensures none { IfNone result ((clients : ℕ) (step : Step) → IsStep sites clients step
        → list (view word.now ∷ view first.now ∷ view second.now ∷ view third.now ∷ [])
        ≢ step_spelled step) }
{
    match string_of(word)? {
        "deliver" => delivery_of(sites, first, second, third),
        "arm" => arming_of(sites, first, second, third),
        _ => None,
    }
}

/// The step that the value spells, where its client or its sites are there.
fn step_of(sites: u8, clients: usize, value: &Value) -> Option<Step>
    requires { clients ≤ 2 ^ 32 }
    ensures some { IfSome result
        (λ step. IsStep sites clients step × (view value.now ≡ step_spelled step)) }
    ensures none { IfNone result
        ((step : Step) → IsStep sites clients step → view value.now ≢ step_spelled step) }
{
    if let Some((word, number)) = pair_of(value) {
        return step_of_one(sites, clients, word, number);
    }
    if let Some((word, at, from)) = triple_of(value) {
        return step_of_two(sites, word, at, from);
    }
    let (word, first, second, third) = four_of(value)?;
    step_of_three(sites, word, first, second, third)
}

/// The steps that the value spells, or the first place that is wrong.
fn steps_listed(
    alloc: Global,
    sites: u8,
    clients: usize,
    value: &Value,
) -> Result<Vec<Step>, ReadFault>
    requires { clients ≤ 2 ^ 32 }
    ensures ok { IfOk result (λ steps. ListsSteps sites clients (view value.now) steps.items) }
    ensures fault { IfErr result (IsStepsFault sites clients (view value.now)) }
{
    let values = items_of(value).ok_or(Place::Steps(0))?;
    let mut steps = Vec::new(alloc);
    for (index, value) in values.iter().enumerate() {
        steps.push(step_of(sites, clients, value).ok_or(Place::Steps(index))?)?;
    }
    Ok(steps)
}

/// The steps that the value spells, over so many sites and clients; or what is wrong with the first wrong one.
pub fn steps_of(
    alloc: Global,
    sites: u8,
    clients: usize,
    value: &Value,
) -> Result<Vec<Step>, ReadFault>
    requires { clients ≤ 2 ^ 32 }
    ensures ok { IfOk result (λ steps. ListsSteps sites clients (view value.now) steps.items) }
    ensures fault { IfErr result (IsStepsFault sites clients (view value.now)) }
{
    match steps_listed(alloc, sites, clients, value) {
        Ok(steps) => Ok(steps),
        Err(ReadFault::Refused { place, .. }) => Err(ReadFault::Refused {
            place,
            detail: step_detail(sites, clients, value, place),
        }),
        Err(ReadFault::NoMemory) => Err(ReadFault::NoMemory),
    }
}
