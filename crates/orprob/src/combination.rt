// Pairs combined: once for the lowers, rounded down, and once for the uppers, rounded up.
ghost use Rattle.std.specs.Prelude.{◌≡◌, ◌≤◌, length};
ghost use Rattle.figure.specs.Rounding.{IsFigure};
ghost use Rattle.figure.specs.Operands.{Sized};
ghost use Rattle.orprob.specs.Combination as definition;
ghost use Rattle.orprob.specs.Internal.Parts as parts;
ghost use Rattle.orprob.specs.Internal.Parts.{Right};

use crate::Pair;
use figure::{Direction, Figure};

// f, or 1 where f is above it.
fn at_most_one(f: Figure) -> Figure
    requires { IsFigure 9 f }
    ensures { result ≡ definition.at_most_one f }
{
    let one = Figure::of_whole(1);
    if f.at_or_below(one) { f } else { one }
}

// s with one subsystem more, p being its probability: s + p * (1 - s), each operation rounded the same way.
// Built in at its two calls, where the direction is known: as a function of its own it asked for it in each operation, and took 1.1 times as long.
#[inline(always)]
fn with(to: Direction, s: Figure, p: Figure) -> Figure
    requires { Sized 9 40000 s × Sized 9 2000 p }
    ensures { result ≡ parts.with to s p }
{
    let rest = Figure::of_whole(1).minus(s, to);
    at_most_one(s.plus(p.times(rest, to), to))
}

// Both sides of the pairs.
pub(crate) fn both_sides(pairs: &[Pair]) -> Pair
    requires { (length pairs.now ≤ 16) × Right pairs.now (length pairs.now) }
    ensures lower_value { result.lower ≡ definition.lower_or pairs.now }
    ensures upper_value { result.upper ≡ definition.upper_or pairs.now }
{
    let mut lower = Figure::zero();
    let mut upper = Figure::zero();
    for x in pairs {
        lower = with(Direction::Down, lower, x.lower);
        upper = with(Direction::Up, upper, at_most_one(x.upper));
    }
    Pair { lower, upper }
}
