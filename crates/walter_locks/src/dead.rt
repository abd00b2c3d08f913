//! The slow commits that are over, by coordinator.
ghost use Rattle.std.specs.Prelude.{◌≡◌, ◌<◌, ◌≤◌, ◌||◌, [], ℕ, nat_eq, false, length, All, IfOk, OnOk, IsOk};
ghost use Rattle.walter_base.specs.declared.names.SiteId.{SiteId as Site};
ghost use Rattle.walter_locks.specs.Parts.{is_dead, room_of};
ghost use Rattle.walter_rules.specs.Slow.{is_slow};

use crate::intervals::Intervals;
use std::alloc::Global;
use walter_base::{Mem, SiteId};

/// No number of so many sites.
pub fn none_dead(alloc: Global, sites: u8) -> Mem<Vec<Intervals>>
    ensures sites { IfOk result (λ dead. length dead.items ≡ sites) }
    ensures none { IfOk result (λ dead. All (λ numbers. numbers.intervals ≡ []) dead.items) }
{
    let mut dead = Vec::new(alloc);
    for _site in 0..sites {
        dead.push(Intervals::new(alloc))?;
    }
    Ok(dead)
}

/// Whether the number of the coordinator is among them.
pub fn is_among(dead: &[Intervals], coordinator: SiteId, slow: u64) -> bool
    ensures { result ≡ is_dead dead.now coordinator slow }
{
    match dead.get(coordinator.0 as usize) {
        Some(intervals) => intervals.has(slow),
        None => false,
    }
}

/// Makes room for one more interval of each site.
pub fn make_room(dead: &mut Vec<Intervals>) -> Mem<()>
    ensures sites { length dead.new.items ≡ length dead.old.items }
    ensures enough { OnOk result ((place : ℕ) → place < length dead.old.items → 0 < room_of dead.new.items place) }
    ensures had { ((place : ℕ) → place < length dead.old.items → 0 < room_of dead.old.items place) → IsOk result }
    ensures dead { (j : Site) (n : ℕ) → is_dead dead.new.items j n ≡ is_dead dead.old.items j n }
    ensures more { (place : ℕ) → room_of dead.old.items place ≤ room_of dead.new.items place }
{
    for place in 0..dead.len() {
        let intervals = &mut dead[place];
        intervals.make_room()?;
    }
    Ok(())
}

/// Puts the number of the coordinator to them, without taking memory.
pub fn mark(dead: &mut Vec<Intervals>, coordinator: SiteId, slow: u64)
    requires { 0 < room_of dead.old.items coordinator.0 }
    ensures sites { length dead.new.items ≡ length dead.old.items }
    ensures dead { (j : Site) (n : ℕ) → is_dead dead.new.items j n
        ≡ (is_slow coordinator slow j n || is_dead dead.old.items j n) }
    ensures room { (place : ℕ) → nat_eq coordinator.0 place ≡ false
        → room_of dead.new.items place ≡ room_of dead.old.items place }
{
    let Some(intervals) = dead.get_mut(coordinator.0 as usize) else {
        return;
    };
    intervals.add(slow);
}
