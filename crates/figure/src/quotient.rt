// Quotients of figures.
ghost use Rattle.std.specs.Prelude.{◌≡◌, ◌<◌};
ghost use Rattle.fraction.specs.Fraction.{◌/ᶠ◌};
ghost use Rattle.figure.specs.Rounding.{value};
ghost use Rattle.figure.specs.Operands.{Operand};
ghost use Rattle.figure.specs.Internal.Steps.{rounded, NineDigits, Padding};

use crate::division::{Part, Width};
use crate::{Direction, Figure, powers};

// How many zeros the first number needs so that its quotient by the second has nine digits, for two numbers of nine digits.
fn zeros_needed(a: u64, b: u64) -> usize
    requires { NineDigits a × NineDigits b }
    ensures { Padding a b result }
{
    if b <= a { 8 } else { 9 }
}

// The quotient, rounded up or down.
pub(crate) fn divided(to: Direction, a: Figure, b: Figure) -> Figure
    requires { Operand 9 a × Operand 9 b × (0 < b.digits) }
    ensures { result ≡ rounded to 9 (value a /ᶠ value b) }
{
    if a.digits == 0 {
        return a;
    }
    let zeros = zeros_needed(a.digits, b.digits);
    let part = Part::of(a.digits * powers::ten_to(zeros), b.digits);
    part.directed(to, Width::Nine, a.power - b.power - zeros as i32)
}
