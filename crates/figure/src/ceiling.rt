// The least whole number not below a figure.
ghost use Rattle.figure.specs.Rounding.{IsFigure};
ghost use Rattle.figure.specs.Internal.Ceiling.{Ceiling};

use crate::{Figure, powers};

// The least whole number not below g, or 10^18 where that is less.
pub(crate) fn ceiling(g: Figure) -> u64
    requires { IsFigure 9 g }
    ensures { Ceiling g result }
{
    match g.power {
        10.. => 1_000_000_000_000_000_000,
        0..=9 => g.digits * powers::ten_to(g.power as usize),
        -9..=-1 => g.digits.div_ceil(powers::ten_to(-g.power as usize)),
        _ => 1,
    }
}
