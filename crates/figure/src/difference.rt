// Differences of figures.
ghost use Rattle.std.specs.Prelude.{◌≡◌, ◌<◌};
ghost use Rattle.fraction.specs.Fraction.{◌-ᶠ◌};
ghost use Rattle.figure.specs.Rounding.{value};
ghost use Rattle.figure.specs.Operands.{Sized, Operand};
ghost use Rattle.figure.specs.Internal.Steps.{rounded, Ordered, just_below};

use crate::division::{Part, Width};
use crate::{Direction, Figure, powers, whole};

// The first less the second; zero where that is not positive.
pub(crate) fn minus(to: Direction, a: Figure, b: Figure) -> Figure
    requires { Operand 9 a × Operand 9 b }
    ensures { result ≡ rounded to 9 (value a -ᶠ value b) }
{
    if a.digits == 0 || b.digits == 0 {
        return a;
    }
    if b.power <= a.power {
        return less(to, a, b);
    }
    Figure::zero()
}

// The first less the second, whose power is not above the first's.
fn less(to: Direction, a: Figure, b: Figure) -> Figure
    requires { Ordered 9 a b }
    ensures { result ≡ rounded to 9 (value a -ᶠ value b) }
{
    let gap = (a.power - b.power) as usize;
    // ten powers apart or more, the second is below a tenth of the first's last digit
    if 9 < gap {
        return lessened(to, a);
    }
    let n = a.digits * powers::ten_to(gap);
    if n <= b.digits {
        return Figure::zero();
    }
    whole::fitted(to, n - b.digits, b.power)
}

// A figure less something above zero and below a tenth of its last digit.
fn lessened(to: Direction, a: Figure) -> Figure
    requires { Sized 9 200000 a × (0 < a.digits) }
    ensures { result ≡ just_below to a }
{
    let (whole, power) = if a.digits == 100_000_000 {
        (999_999_999, a.power - 1)
    } else {
        (a.digits - 1, a.power)
    };
    let part = Part { whole, rest: true };
    part.directed(to, Width::Nine, power)
}
