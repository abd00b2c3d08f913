//! The numbers from a first to a last.
ghost use Rattle.std.specs.Prelude.{◌≡◌, ◌+◌, nat_eq, nat_lt, max, min};
ghost use Rattle.walter_locks.specs.Intervals.{is_in};

/// The numbers from a first to a last.
#[derive(Clone, Copy, Debug)]
pub struct Interval {
    pub first: u64,
    pub last: u64,
}

impl Interval {
    /// The interval of one number.
    pub fn of(number: u64) -> Interval
        ensures { result ≡ record { first = number; last = number } }
    {
        Interval {
            first: number,
            last: number,
        }
    }

    /// Whether the number is in it. Its first and its last are.
    pub fn has(&self, number: u64) -> bool
        ensures { result ≡ is_in number self.now }
    {
        self.first <= number && number <= self.last
    }

    /// Whether a number is left out between the interval and this number.
    pub fn is_before(&self, number: u64) -> bool
        ensures { result ≡ nat_lt (self.now.last + 1) number }
    {
        self.last < number && 1 < number - self.last
    }

    /// Whether a number is left out between this number and the interval.
    pub fn is_past(&self, number: u64) -> bool
        ensures { result ≡ nat_lt (number + 1) self.now.first }
    {
        number < self.first && 1 < self.first - number
    }

    /// Whether the other interval begins at the next number.
    pub fn touches(&self, next: &Interval) -> bool
        ensures { result ≡ nat_eq (self.now.last + 1) next.now.first }
    {
        self.last < next.first && next.first - self.last == 1
    }

    /// The interval, up to the number or from it.
    pub fn widened(&self, number: u64) -> Interval
        ensures { result ≡ record { first = min self.now.first number; last = max self.now.last number } }
    {
        Interval {
            first: self.first.min(number),
            last: self.last.max(number),
        }
    }
}
