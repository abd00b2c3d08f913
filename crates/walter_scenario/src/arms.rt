//! The arms that values spell.
ghost use Rattle.std.specs.Prelude.{◌≡◌, ◌≢◌, ◌∷◌, [], IfSome, IfNone, IfOk, IfErr};
ghost use Rattle.serde_json.specs.View.{view};
ghost use Rattle.walter_scenario.specs.declared.scenario.Arm.{Arm};
ghost use Rattle.walter_scenario.specs.Faults.{IsArmsFault, IsGivenArmsFault};
ghost use Rattle.walter_scenario.specs.Fronts.{ListsArms};
ghost use Rattle.walter_scenario.specs.Members.{data_in};
ghost use Rattle.walter_scenario.specs.Parts.{IsArm, arm_items, arm_spelled};
ghost use Rattle.walter_scenario.specs.Scenarios.{GivesArms};

use crate::place::{Place, ReadFault};
use crate::scenario::{Arm, LAST_ARMED};
use crate::values::{items_of, site_of, triple_of, whole_of};
use serde_json::Value;
use std::alloc::Global;

/// The arm that three values spell.
pub fn arm_from(sites: u8, site: &Value, nth: &Value, choice: &Value) -> Option<Arm>
    ensures there { IfSome result (IsArm sites) }
    ensures some { IfSome result
        (λ arm. view site.now ∷ view nth.now ∷ view choice.now ∷ [] ≡ arm_items arm) }
    ensures none { IfNone result ((arm : Arm) → IsArm sites arm
        → view site.now ∷ view nth.now ∷ view choice.now ∷ [] ≢ arm_items arm) }
{
    let site = site_of(sites, site)?;
    let nth = whole_of(nth)?;
    let choice = whole_of(choice)?;
    if nth < 1 || nth > LAST_ARMED {
        return None;
    }
    Some(Arm { site, nth, choice })
}

/// The arm that the value spells.
fn arm_of(sites: u8, value: &Value) -> Option<Arm>
    ensures some { IfSome result
        (λ arm. IsArm sites arm × (view value.now ≡ arm_spelled arm)) }
    ensures none { IfNone result
        ((arm : Arm) → IsArm sites arm → view value.now ≢ arm_spelled arm) }
{
    let (site, nth, choice) = triple_of(value)?;
    arm_from(sites, site, nth, choice)
}

/// The arms that the value spells, of so many sites.
fn arms_of(alloc: Global, sites: u8, value: &Value) -> Result<Vec<Arm>, ReadFault>
    ensures ok { IfOk result (λ arms. ListsArms sites (view value.now) arms.items) }
    ensures fault { IfErr result (IsArmsFault sites (view value.now)) }
{
    let values = items_of(value).ok_or(Place::Arms(0))?;
    let mut arms = Vec::new(alloc);
    for (index, value) in values.iter().enumerate() {
        arms.push(arm_of(sites, value).ok_or(Place::Arms(index))?)?;
    }
    Ok(arms)
}

/// The arms that the value of their key gives; none where the key is absent.
pub fn given_arms(alloc: Global, sites: u8, given: Option<&Value>) -> Result<Vec<Arm>, ReadFault>
    ensures ok { IfOk result (λ arms. GivesArms sites (data_in given.entry) arms.items) }
    ensures fault { IfErr result (IsGivenArmsFault sites (data_in given.entry)) }
{
    match given {
        Some(value) => arms_of(alloc, sites, value),
        None => Ok(Vec::new(alloc)),
    }
}
