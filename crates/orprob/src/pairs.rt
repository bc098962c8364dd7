// Which pairs can be combined: refusal 18.
ghost use Rattle.std.specs.Prelude.{◌≡◌, ◌&&◌, position, not};
ghost use Rattle.figure.specs.Tested.{figure_test};
ghost use Rattle.orprob.specs.Pairs as definition;

use crate::Pair;
use figure::Figure;

// Is the power from -2,000 to 2,000?
#[tactic(auto, unfolding(crate::specs::Pairs::power_inside))]
fn power_inside(power: i32) -> bool
    ensures { result ≡ definition.power_inside power }
{
    (-2000..=2000).contains(&power)
}

// Is this a figure, with its power in range?
fn is_in_range(f: Figure) -> bool
    ensures { result ≡ (figure_test f && definition.power_inside f.power) }
{
    f.is_figure() && power_inside(f.power)
}

// Are these two figures, with powers in range, the lower at most 1 and at most the upper?
fn is_pair(x: Pair) -> bool
    ensures { result ≡ definition.is_pair x }
{
    is_in_range(x.lower)
        && is_in_range(x.upper)
        && x.lower.at_or_below(Figure::of_whole(1))
        && x.lower.at_or_below(x.upper)
}

// The index of the first pair that is none.
pub(crate) fn first_wrong(pairs: &[Pair]) -> Option<usize>
    ensures { result ≡ position (λ x. not (definition.is_pair x)) pairs.now }
{
    pairs.iter().position(|x| !is_pair(*x))
}
