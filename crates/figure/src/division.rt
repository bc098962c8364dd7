// The one core of every rounding: a quotient, whether something was left over, and what the direction makes of it.
ghost use Rattle.std.specs.Prelude.{◌≡◌, ◌*◌, ◌^◌, ◌≤◌, ◌<◌};
ghost use Rattle.std.specs.Int.Signed.{mag};
ghost use Rattle.figure.specs.Internal.Steps.{digits_of, part, shorter, carry, directed, trimmed};

use crate::{Direction, Figure};

// How many digits a rounding leaves: those of a figure, or those of a total.
#[derive(Clone, Copy)]
pub(crate) enum Width {
    Nine,
    Eighteen,
}

impl Width {
    // The least number that has one digit more.
    fn limit(self) -> u64
        ensures { result ≡ 10 ^ digits_of self }
    {
        match self {
            Width::Nine => 1_000_000_000,
            Width::Eighteen => 1_000_000_000_000_000_000,
        }
    }
}

// A quotient of whole numbers, and whether something was left over.
#[derive(Clone, Copy)]
pub(crate) struct Part {
    pub(crate) whole: u64,
    pub(crate) rest: bool,
}

impl Part {
    // n over d.
    pub(crate) fn of(n: u64, d: u64) -> Part
        requires { 0 < d }
        ensures { result ≡ part n d }
    {
        let whole = n / d;
        Part {
            whole,
            rest: whole * d != n,
        }
    }

    // Divided once more, by d: what was left before counts too.
    pub(crate) fn shortened(self, d: u64) -> Part
        requires { 0 < d }
        ensures { result ≡ shorter self d }
    {
        let q = Part::of(self.whole, d);
        Part {
            whole: q.whole,
            rest: self.rest | q.rest,
        }
    }

    // Its digits at a power, rounded up or down to the given width.
    // kept: (d) `to` and `width` side by side, here, below and in `sum::plus`: the one is the caller's choice and the other the operation's own, and a struct
    // of the two would be made at each call.
    pub(crate) fn directed(self, to: Direction, width: Width, power: i32) -> Figure
        requires { (self.whole < 10 ^ digits_of width) × (mag power ≤ 1000000) }
        ensures { result ≡ directed to (digits_of width) self power }
    {
        if to == Direction::Up && self.rest {
            return carried(width, self.whole + 1, power);
        }
        Figure {
            digits: self.whole,
            power,
        }
    }

    // The same where it may have one digit too many.
    pub(crate) fn trimmed(self, to: Direction, width: Width, power: i32) -> Figure
        requires { (self.whole < 10 * 10 ^ digits_of width) × (mag power ≤ 900000) }
        ensures { result ≡ trimmed to (digits_of width) self power }
    {
        if self.whole < width.limit() {
            return self.directed(to, width, power);
        }
        self.shortened(10).directed(to, width, power + 1)
    }
}

// Digits at a power, where they may be one too many.
fn carried(width: Width, digits: u64, power: i32) -> Figure
    requires { mag power ≤ 1000000 }
    ensures { result ≡ carry (digits_of width) digits power }
{
    let limit = width.limit();
    if digits == limit {
        return Figure {
            digits: limit / 10,
            power: power + 1,
        };
    }
    Figure { digits, power }
}
