//! Moves laid over the counts of a set: both are gone over once, side by side, and neither is copied.
ghost use Rattle.std.specs.Prelude.{◌≡◌, ◌≤◌, ◌<◌, ◌+◌, ◌+ℤ◌, ℕ, ℤ, pos, List, [], ◌∷◌, drop, length, OnOk, IfOk};
ghost use Rattle.walter_cset.specs.Tallies.{number_in, number_at, AreNumbers};
ghost use Rattle.walter_overlay.specs.Laying.{IsRisingFrom, AreNumbersBelow, AreLaid, IsBehind};
ghost use Rattle.walter_overlay.specs.Overlays.{IsCount};

use std::alloc::Global;
use std::collections::BTreeMap;
use walter_base::{Counts, Mem};

/// The counts of a set that has the counts `base` but for the moves.
pub fn laid(alloc: Global, base: &BTreeMap<u64, i64>, moves: &[(u64, i64)]) -> Mem<Counts>
    requires rising { IsRisingFrom 0 moves.now }
    requires fits { (id : ℕ) → IsCount (number_at base.now id +ℤ number_in moves.now id) }
    ensures { IfOk result (AreNumbers (λ id. number_at base.now id +ℤ number_in moves.now id)) }
{
    let mut items = Vec::new(alloc);
    let mut place = 0;
    for (id, number) in base {
        let from = lay_before(&mut items, moves, place, *id)?;
        place = lay_both(&mut items, moves, from, *id, *number)?;
    }
    lay_rest(&mut items, moves, place)?;
    Ok(Counts::from(items))
}

/// Puts the number of the id behind the others, where it isn't 0.
fn push_shown(items: &mut Vec<(u64, i64)>, id: u64, number: i64) -> Mem<()>
    ensures { OnOk result ((end : ℕ) (numbers : ℕ → ℤ) → AreNumbersBelow end numbers items.old.items → end ≤ id
        → ((other : ℕ) → end ≤ other → other < id → numbers other ≡ pos 0) → numbers id ≡ number
        → AreNumbersBelow (id + 1) numbers items.new.items) }
{
    if number != 0 {
        items.push((id, number))?;
    }
    Ok(())
}

/// Puts the moves from a place on that stand before the id, and gives the place of the next.
fn lay_before(
    items: &mut Vec<(u64, i64)>,
    moves: &[(u64, i64)],
    place: usize,
    id: u64,
) -> Mem<usize>
    requires { place ≤ length moves.now }
    ensures within { IfOk result (λ next. next ≤ length moves.now) }
    ensures laid { IfOk result (λ next. (numbers : ℕ → ℤ) (number : ℤ) (others : List (ℕ × ℤ))
        → AreLaid numbers ((id, number) ∷ others) (drop place moves.now) items.old.items
        → AreLaid numbers ((id, number) ∷ others) (drop next moves.now) items.new.items
        × IsRisingFrom id (drop next moves.now)) }
{
    let mut next = place;
    while next < moves.len() && moves[next].0 < id {
        push_shown(items, moves[next].0, moves[next].1)?;
        next += 1;
    }
    Ok(next)
}

/// What the move at the place adds to the number of the id, and the place of the next move behind it.
fn move_of(moves: &[(u64, i64)], place: usize, id: u64) -> (i64, usize)
    requires { place ≤ length moves.now }
    ensures within { result.1 ≤ length moves.now }
    ensures behind { IsRisingFrom id (drop place moves.now)
        → IsBehind id (drop place moves.now) result.0 (drop result.1 moves.now) }
{
    if place < moves.len() && moves[place].0 == id {
        (moves[place].1, place + 1)
    } else {
        (0, place)
    }
}

/// Puts the id with its number in the base and what the moves add to it.
fn lay_both(
    items: &mut Vec<(u64, i64)>,
    moves: &[(u64, i64)],
    place: usize,
    id: u64,
    number: i64,
) -> Mem<usize>
    requires within { place ≤ length moves.now }
    requires rising { IsRisingFrom id (drop place moves.now) }
    requires fits { IsCount (number +ℤ number_in (drop place moves.now) id) }
    ensures within { IfOk result (λ next. next ≤ length moves.now) }
    ensures laid { IfOk result (λ next. (numbers : ℕ → ℤ) (others : List (ℕ × ℤ))
        → AreLaid numbers ((id, number) ∷ others) (drop place moves.now) items.old.items
        → AreLaid numbers others (drop next moves.now) items.new.items) }
{
    let (by, next) = move_of(moves, place, id);
    push_shown(items, id, number + by)?;
    Ok(next)
}

/// Puts the moves from a place on.
fn lay_rest(items: &mut Vec<(u64, i64)>, moves: &[(u64, i64)], place: usize) -> Mem<()>
    requires { place ≤ length moves.now }
    ensures { OnOk result ((numbers : ℕ → ℤ) → AreLaid numbers [] (drop place moves.now) items.old.items
        → AreLaid numbers [] [] items.new.items) }
{
    let mut next = place;
    while next < moves.len() {
        push_shown(items, moves[next].0, moves[next].1)?;
        next += 1;
    }
    Ok(())
}
