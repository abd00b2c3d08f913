//! The numbers of the slow commits that are being decided, or owe a RELEASE.
ghost use Rattle.std.specs.Prelude.{◌≡◌, ◌≤◌, ◌-◌, ◌&&◌, ◌||◌, not, ℕ, nat_eq, vec_len, vec_capacity};
ghost use Rattle.std.specs.List.{list_any};
ghost use Rattle.walter_slow.specs.Tables.{RiseBetween};

/// Takes a number out of rising ones, unless its slow commit is busy.
pub fn settle(busy: &mut Vec<u64>, slow: u64, is_busy: bool)
    ensures any { (n : ℕ) → list_any (nat_eq n) busy.new.items
        ≡ (list_any (nat_eq n) busy.old.items && (is_busy || not (nat_eq slow n))) }
    ensures rising { (last : ℕ) → RiseBetween 0 last busy.old.items → RiseBetween 0 last busy.new.items }
    ensures room { vec_capacity busy.old - vec_len busy.old ≤ vec_capacity busy.new - vec_len busy.new }
{
    if is_busy {
        return;
    }
    busy.retain(
        |number: &u64| -> bool
            ensures { result ≡ not (nat_eq slow number.now) }
        { *number != slow },
    );
}
