//! A checker of histories: plain, slow, and by the definitions. It computes each log and each snapshot anew.

mod answers;
mod logs;
mod marks;
mod rules;
mod updates;

ghost use Rattle.std.specs.Prelude.{◌≡◌, ◌↔◌, ℕ, None, Some, IfOk};
ghost use Rattle.walter_psi.specs.Legal.{IsLegal};
ghost use Rattle.walter_psi.specs.Checking.{IsFirstIllegal};

use crate::step::Step;
use std::alloc::Global;
use walter_base::Mem;

/// The first place of the history whose step may not follow the steps before it, or none where the history is legal.
/// It takes time with the cube of the number of steps, and more.
pub fn first_illegal(alloc: Global, steps: &[Step]) -> Mem<Option<usize>>
    ensures none { IfOk result (λ found. (found ≡ None) ↔ IsLegal steps.now) }
    ensures first { (place : ℕ) → IfOk result (λ found. (found ≡ Some place) ↔ IsFirstIllegal steps.now place) }
{
    for place in 0..steps.len() {
        if !rules::may_follow(alloc, &steps[..place], &steps[place])? {
            return Ok(Some(place));
        }
    }
    Ok(None)
}
