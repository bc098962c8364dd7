// Sums of figures of one width.
ghost use Rattle.std.specs.Prelude.{◌≡◌, ◌^◌, ◌<◌};
ghost use Rattle.fraction.specs.Fraction.{◌+ᶠ◌};
ghost use Rattle.figure.specs.Rounding.{value};
ghost use Rattle.figure.specs.Operands.{Sized};
ghost use Rattle.figure.specs.Internal.Steps.{rounded, digits_of, Alignable, in_order, part, aligned_sum};

use crate::division::{Part, Width};
use crate::{Direction, Figure, powers};

// The sum, rounded up or down.
pub(crate) fn plus(to: Direction, width: Width, a: Figure, b: Figure) -> Figure
    requires { Sized (digits_of width) 200000 a × Sized (digits_of width) 200000 b }
    ensures { result ≡ rounded to (digits_of width) (value a +ᶠ value b) }
{
    if a.digits == 0 {
        return b;
    }
    if b.digits == 0 {
        return a;
    }
    let (large, small) = in_order(a, b);
    aligned(large, small).trimmed(to, width, large.power)
}

// The two, the one with the higher power first.
pub(crate) fn in_order(a: Figure, b: Figure) -> (Figure, Figure)
    ensures { result ≡ in_order a b }
{
    if b.power <= a.power { (a, b) } else { (b, a) }
}

// The first, with what of the second reaches the first's last digit.
pub(crate) fn aligned(large: Figure, small: Figure) -> Part
    requires { Alignable large small }
    ensures { result ≡ aligned_sum large small }
{
    let gap = (large.power - small.power) as usize;
    let part = lowered(small.digits, gap);
    Part {
        whole: large.digits + part.whole,
        rest: part.rest,
    }
}

// n over 10^k, for every k.
fn lowered(n: u64, k: usize) -> Part
    requires { n < 10 ^ 18 }
    ensures { result ≡ part n (10 ^ k) }
{
    if k < 19 {
        Part::of(n, powers::ten_to(k))
    } else {
        Part {
            whole: 0,
            rest: 0 < n,
        }
    }
}
