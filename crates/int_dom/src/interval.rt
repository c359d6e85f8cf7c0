ghost use Rattle.std.specs.Prelude.{◌≡◌, ◌↔◌, true, ℤ, ◌≤ℤ◌, ◌<ℤ◌, IsNone, IfSome};
ghost use Rattle.int_dom.specs.Intervals as spec;

/// The integers from `lo` to `hi`, both among them. There are none where `hi` is below `lo`.
#[derive(Clone, Copy, Debug, PartialEq, Eq)]
pub struct Interval {
    pub lo: i64,
    pub hi: i64,
}

impl Interval {
    /// Whether the interval has no integer.
    pub fn is_empty(self) -> bool
        ensures { result ≡ spec.is_empty self }
    {
        self.hi < self.lo
    }

    /// Whether the interval has one integer.
    pub fn is_single(self) -> bool
        ensures { result ≡ spec.is_single self }
    {
        self.lo == self.hi
    }

    /// The one integer of the interval, and None exactly where it has none or several.
    pub fn single(self) -> Option<i64>
        ensures { (n : ℤ) → (result ≡ Some n) ↔ ((m : ℤ) → spec.Has self m ↔ (m ≡ n)) }
    {
        self.is_single().then_some(self.lo)
    }

    /// The integers of both intervals, and None exactly where there are none.
    pub fn meet(self, other: Interval) -> Option<Interval>
        ensures none { IsNone result ↔ ((n : ℤ) → spec.Has self n → spec.Has other n → ⊥) }
        ensures both { IfSome result (λ d. (n : ℤ) → spec.Has d n ↔ (spec.Has self n × spec.Has other n)) }
    {
        Interval {
            lo: self.lo.max(other.lo),
            hi: self.hi.min(other.hi),
        }
        .filled()
    }

    /// The integers that are at most a number, and those above it. Each is None exactly where
    /// there are none.
    pub fn le(self, n: i64) -> (Option<Interval>, Option<Interval>)
        ensures low { result.0 ≡ spec.filled (spec.at_most n self) }
        ensures high { result.1 ≡ spec.filled (spec.above n self) }
        ensures none_low { IsNone result.0 ↔ ((m : ℤ) → spec.Has self m → m ≤ℤ n → ⊥) }
        ensures low_has { IfSome result.0 (λ d. (m : ℤ) → spec.Has d m ↔ (spec.Has self m × (m ≤ℤ n))) }
        ensures none_high { IsNone result.1 ↔ ((m : ℤ) → spec.Has self m → n <ℤ m → ⊥) }
        ensures high_has { IfSome result.1 (λ d. (m : ℤ) → spec.Has d m ↔ (spec.Has self m × (n <ℤ m))) }
    {
        (self.at_most(n).filled(), self.above(n))
    }

    /// The interval, and None where it is empty.
    fn filled(self) -> Option<Interval>
        ensures { result ≡ spec.filled self }
    {
        if self.is_empty() { None } else { Some(self) }
    }

    /// What is at most a number.
    fn at_most(self, n: i64) -> Interval
        ensures { result ≡ spec.at_most n self }
    {
        Interval {
            lo: self.lo,
            hi: self.hi.min(n),
        }
    }

    /// What is above a number. None exactly where there is nothing.
    fn above(self, n: i64) -> Option<Interval>
        ensures { result ≡ spec.filled (spec.above n self) }
    {
        if n < self.hi {
            self.upper(n).filled()
        } else {
            None
        }
    }

    fn middle(self) -> i64
        requires { self.lo <ℤ self.hi }
        ensures exact { result ≡ spec.middle self }
        ensures parts { spec.has_parts result self ≡ true }
        ensures below { result <ℤ self.hi }
    {
        self.lo + (self.hi.abs_diff(self.lo) / 2) as i64
    }

    /// The two halves of an interval with two or more integers: what is at most its middle, which is
    /// the lower end and half the width, rounded down, and what is above it. Neither is empty.
    pub fn halves(self) -> Halves
        requires { self.lo <ℤ self.hi }
        ensures { spec.AreHalves self result }
    {
        let middle = self.middle();
        Halves {
            middle,
            low: self.at_most(middle),
            high: self.upper(middle),
        }
    }

    /// What is above a number that is below the upper end.
    fn upper(self, n: i64) -> Interval
        requires { n <ℤ self.hi }
        ensures { result ≡ spec.above n self }
    {
        Interval {
            lo: self.lo.max(n + 1),
            hi: self.hi,
        }
    }
}

/// The middle of an interval, what is at most the middle, and what is above it.
#[derive(Clone, Copy, Debug, PartialEq, Eq)]
pub struct Halves {
    pub middle: i64,
    pub low: Interval,
    pub high: Interval,
}
