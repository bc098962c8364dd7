// Totals: eighteen digits.
ghost use Rattle.std.specs.Prelude.{◌≡◌, ◌*◌};
ghost use Rattle.fraction.specs.Fraction.{◌+ᶠ◌};
ghost use Rattle.figure.specs.Rounding.{value};
ghost use Rattle.figure.specs.Operands.{Operand};
ghost use Rattle.figure.specs.Internal.Steps.{rounded, widening};

use crate::division::{Part, Width};
use crate::{Direction, Figure, sum};

// A figure of nine digits, with eighteen.
pub(crate) fn widened(a: Figure) -> Figure
    requires { Operand 9 a }
    ensures { result ≡ widening a }
{
    if a.digits == 0 {
        return a;
    }
    Figure {
        digits: a.digits * 1_000_000_000,
        power: a.power - 9,
    }
}

// A total, rounded up or down to nine digits.
pub(crate) fn to_nine(to: Direction, t: Figure) -> Figure
    requires { Operand 18 t }
    ensures { result ≡ rounded to 9 (value t) }
{
    if t.digits == 0 {
        return t;
    }
    Part::of(t.digits, 1_000_000_000).directed(to, Width::Nine, t.power + 9)
}

// The sum of two totals, rounded once, to nine digits.
pub(crate) fn sum_to_nine(to: Direction, t: Figure, s: Figure) -> Figure
    requires { Operand 18 t × Operand 18 s }
    ensures { result ≡ rounded to 9 (value t +ᶠ value s) }
{
    if t.digits == 0 {
        return to_nine(to, s);
    }
    if s.digits == 0 {
        return to_nine(to, t);
    }
    let (large, small) = sum::in_order(t, s);
    let part = sum::aligned(large, small).shortened(1_000_000_000);
    part.trimmed(to, Width::Nine, large.power + 9)
}
