//! The changes of a set that weren't folded, in the order of arrival. Each knows a vector that sees all before it: who
//! goes from one vector to another looks at them from the end, to the one whose vector both cover.
ghost use Rattle.std.specs.Prelude.{◌≡◌, ◌<◌, ◌≤◌, ◌+◌, ◌++◌, ◌∷◌, ◌↔◌, [], true, not, filter, take, length, All, IsTrue, OnOk};
ghost use Rattle.walter_base.specs.declared.names.Version.{Version as Named};
ghost use Rattle.walter_base.specs.Conflicts.{sees_version};
ghost use Rattle.walter_history.specs.Reaches.{Reaches};
ghost use Rattle.walter_history.specs.Rows.{sees_row};
ghost use Rattle.walter_history.specs.Steps.{told, AreLinked, AreSeenBefore, AreBehind};

use crate::reach::{Reach, is_covered, no_reach, with_version};
use crate::room::make_spare;
use std::alloc::Global;
use std::marker::Model;
use walter_base::{Mem, Row, Vts};

/// A change of a set, with a vector that sees those before it, if one is known.
#[derive(Debug, Drop)]
pub struct Step {
    pub row: Row,
    before: Option<Reach>,
}

/// The changes of a set. Contracts see their rows.
#[derive(Drop)]
pub struct Steps {
    items: Vec<Step>,
}

impl Model for Steps {
    ghost use Rattle.std.specs.Prelude.{◌-◌, vec_len, vec_capacity};
    ghost use Rattle.walter_history.specs.Steps.{told, AreLinked, Stepped};

    ghost Value = { Stepped };

    ghost view = { λ s. record { rows = told s.items.items; room = vec_capacity s.items - vec_len s.items } };

    ghost invariant = { λ s. AreLinked s.items.items };
}

impl Steps {
    /// There is none.
    pub fn new(alloc: Global) -> Steps
        ensures rows { result.rows ≡ [] }
        ensures room { result.room ≡ 0 }
    {
        Steps {
            items: Vec::new(alloc),
        }
    }

    /// Makes room for so many more.
    pub fn reserve(&mut self, k: u64) -> Mem<()>
        ensures rows { self.new.rows ≡ self.old.rows }
        ensures enough { OnOk result (k ≤ self.new.room) }
        ensures more { self.old.room ≤ self.new.room }
    {
        make_spare(&mut self.items, k)
    }

    /// Puts a row behind the others, without taking memory.
    pub fn push(&mut self, row: Row)
        requires { 0 < self.old.room }
        ensures rows { self.new.rows ≡ self.old.rows ++ row ∷ [] }
        ensures room { self.old.room ≤ self.new.room + 1 }
    {
        let before = reach(&self.items);
        self.items.push_reserved(Step { row, before });
    }

    /// Whether there is none.
    pub fn is_empty(&self) -> bool
        ensures { IsTrue result ↔ (self.now.rows ≡ []) }
    {
        self.items.is_empty()
    }

    /// Those that the vector sees go.
    pub fn fold(&mut self, floor: &Vts)
        ensures rows { self.new.rows ≡ filter (λ row. not (sees_row floor.now row)) self.old.rows }
        ensures room { self.old.room ≤ self.new.room }
    {
        self.items.retain(
            |step: &Step| -> bool
                ensures { result ≡ not (sees_row floor.entry.now step.now.row) }
            { !floor.sees(step.row.version) },
        );
    }

    /// All of them.
    pub fn as_slice(&self) -> &[Step]
        ensures { told result.now ≡ self.entry.now.rows }
    {
        &self.items
    }

    /// Those that one of the vectors may see and the other not, with some that both see: all before them both see.
    pub fn between(&self, from: &Vts, to: &Vts) -> &[Step]
        ensures { AreBehind from.now to.now self.entry.now.rows (told result.now) }
    {
        let place = first_between(&self.items, from, to);
        &self.items[place..]
    }
}

/// A vector that sees all steps, if one is known.
fn reach(steps: &[Step]) -> Option<Reach>
    requires { AreLinked steps.now }
    ensures { All (λ step. Reaches result step.row.version) steps.now }
{
    match steps.split_last() {
        None => no_reach(),
        Some((last, _)) => with_version(last.before, last.row.version),
    }
}

/// Whether both vectors see whatever the first one sees.
fn both_cover(vector: &Option<Reach>, from: &Vts, to: &Vts) -> bool
    ensures { IsTrue result → (version : Named) → Reaches vector.now version
        → (sees_version from.now version ≡ true) × (sees_version to.now version ≡ true) }
{
    is_covered(vector, from) && is_covered(vector, to)
}

/// How many of the steps stand before all that the vectors may see differently.
fn first_between(steps: &[Step], from: &Vts, to: &Vts) -> usize
    requires { AreLinked steps.now }
    ensures within { result ≤ length steps.now }
    ensures seen { AreSeenBefore result from.now to.now steps.now }
{
    let (place, end) = stride_back(steps, from, to);
    halve(steps, from, to, place, end)
}

/// A place before which both vectors see all steps, looked for from the end in strides that double; and the last place
/// that was looked at before it.
fn stride_back(steps: &[Step], from: &Vts, to: &Vts) -> (usize, usize)
    requires { AreLinked steps.now }
    ensures order { result.0 ≤ result.1 }
    ensures within { result.1 ≤ length steps.now }
    ensures seen { AreSeenBefore result.0 from.now to.now steps.now }
{
    let mut end = steps.len();
    let mut stride = 1;
    while stride < end {
        let place = end - stride;
        if both_cover(&steps[place].before, from, to) {
            return (place, end);
        }
        end = place;
        stride *= 2;
    }
    (0, end)
}

/// Goes on from a place before which both vectors see all steps, by halves and before the end.
fn halve(steps: &[Step], from: &Vts, to: &Vts, place: usize, end: usize) -> usize
    requires linked { AreLinked steps.now }
    requires order { place ≤ end }
    requires end { end ≤ length steps.now }
    requires seen { AreSeenBefore place from.now to.now steps.now }
    ensures within { result ≤ length steps.now }
    ensures seen { AreSeenBefore result from.now to.now steps.now }
{
    let mut place = place;
    let mut end = end;
    while place + 1 < end {
        let middle = place + (end - place) / 2;
        if both_cover(&steps[middle].before, from, to) {
            place = middle;
        } else {
            end = middle;
        }
    }
    place
}
