// Products of figures.
ghost use Rattle.std.specs.Prelude.{◌≡◌, ◌≤◌};
ghost use Rattle.fraction.specs.Fraction.{◌*ᶠ◌};
ghost use Rattle.figure.specs.Rounding.{value};
ghost use Rattle.figure.specs.Operands.{Operand};
ghost use Rattle.figure.specs.Products.{product_divisor, eighteenth};
ghost use Rattle.figure.specs.Internal.Steps.{rounded, scaling};

use crate::division::{Part, Width};
use crate::{Direction, Figure};

// The first nine digits of a product, and how many more it has.
#[derive(Clone, Copy)]
struct Scaled {
    part: Part,
    dropped: i32,
}

// 1 for a product of 18 digits, 0 for one of 17: the comparison as a number.
fn extra_digit(p: u64) -> usize
    ensures value { result ≡ eighteenth p }
    ensures upper_bound { result ≤ 1 }
{
    (100_000_000_000_000_000 <= p) as usize
}

// What a product is divided by, so that its first nine digits are left: worked out from the comparison, with no branch.
fn divisor(p: u64) -> u64
    ensures { result ≡ product_divisor p }
{
    100_000_000 + 900_000_000 * extra_digit(p) as u64
}

// A product of two figures that are not zero has 17 or 18 digits: one division leaves nine.
fn nine_digits(p: u64) -> Scaled
    ensures { result ≡ scaling p }
{
    let part = Part::of(p, divisor(p));
    let dropped = (8 + extra_digit(p)) as i32;
    Scaled { part, dropped }
}

// The product, rounded up or down.
pub(crate) fn times(to: Direction, a: Figure, b: Figure) -> Figure
    requires { Operand 9 a × Operand 9 b }
    ensures { result ≡ rounded to 9 (value a *ᶠ value b) }
{
    let p = a.digits * b.digits;
    if p == 0 {
        return Figure::zero();
    }
    let s = nine_digits(p);
    s.part
        .directed(to, Width::Nine, a.power + b.power + s.dropped)
}
