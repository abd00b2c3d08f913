//! Numbers, kept as the intervals that they make.
ghost use Rattle.std.specs.Prelude.{◌≡◌, ◌<◌, ◌≤◌, ◌+◌, ◌++◌, ◌||◌, [], ℕ, nat_eq, nat_lt, not, take, drop, position, slice_get, vec_len, vec_capacity, OnOk, IsOk};
ghost use Rattle.walter_locks.specs.Intervals.{is_among};
ghost use Rattle.walter_locks.specs.Adding.{is_before, joined_at, put_at};

use crate::interval::Interval;
use std::alloc::Global;
use std::marker::Model;
use walter_base::Mem;

/// Numbers, as the intervals that they make. Contracts read them by `is_among`.
#[derive(Debug, Drop)]
pub struct Intervals {
    intervals: Vec<Interval>,
}

impl Model for Intervals {
    ghost use Rattle.std.specs.Prelude.{◌-◌, vec_len, vec_capacity};
    ghost use Rattle.walter_locks.specs.Intervals.{Numbers, RiseApart};

    ghost Value = { Numbers };

    ghost view = { λ r. record { intervals = r.intervals.items; room = vec_capacity r.intervals - vec_len r.intervals } };

    ghost invariant = { λ r. RiseApart 0 r.intervals.items };
}

impl Intervals {
    /// No number.
    pub fn new(alloc: Global) -> Intervals
        ensures { result.intervals ≡ [] }
    {
        Intervals {
            intervals: Vec::new(alloc),
        }
    }

    /// Whether the number is among them. It looks at one interval after another.
    pub fn has(&self, number: u64) -> bool
        ensures { result ≡ is_among number self.now.intervals }
    {
        self.intervals.iter().any(|interval| interval.has(number))
    }

    /// Makes room for one more interval.
    pub fn make_room(&mut self) -> Mem<()>
        ensures enough { OnOk result (0 < self.new.room) }
        ensures had { 0 < self.old.room → IsOk result }
        ensures intervals { self.new.intervals ≡ self.old.intervals }
        ensures more { self.old.room ≤ self.new.room }
    {
        self.intervals.reserve(1)?;
        Ok(())
    }

    /// Puts the number to the others, without taking memory. It makes an interval of its own, widens one, or joins two.
    pub fn add(&mut self, number: u64)
        requires { 0 < self.old.room }
        ensures { (n : ℕ) → is_among n self.new.intervals ≡ (nat_eq number n || is_among n self.old.intervals) }
    {
        match self.place_of(number) {
            Some(place) => put(&mut self.intervals, place, number),
            None => self.intervals.push_reserved(Interval::of(number)),
        }
    }

    /// The place of the first interval that isn't before the number.
    fn place_of(&self, number: u64) -> Option<usize>
        ensures { result ≡ position (λ interval. not (is_before number interval)) self.now.intervals }
    {
        self.intervals
            .iter()
            .position(|interval| !interval.is_before(number))
    }
}

/// Puts the number into the interval at the place, or as an interval of its own before it.
fn put(intervals: &mut Vec<Interval>, place: usize, number: u64)
    requires place { place < vec_len intervals.old }
    requires room { vec_len intervals.old < vec_capacity intervals.old }
    ensures { intervals.new.items ≡ put_at number place intervals.old.items }
{
    let interval = intervals[place];
    if interval.is_past(number) {
        intervals.insert(place, Interval::of(number)).unwrap();
    } else {
        intervals[place] = interval.widened(number);
        join(intervals, place);
    }
}

/// Joins the interval at the place and the next one, where the next one begins at the next number.
fn join(intervals: &mut Vec<Interval>, place: usize)
    requires { place < vec_len intervals.old }
    ensures { intervals.new.items ≡ joined_at place intervals.old.items }
{
    let interval = intervals[place];
    let Some(next) = intervals.get(place + 1).copied() else {
        return;
    };
    if interval.touches(&next) {
        intervals[place] = Interval {
            first: interval.first,
            last: next.last,
        };
        intervals.remove(place + 1);
    }
}
