// What becomes of a path after a step.
ghost use Rattle.std.specs.Prelude.{◌≤◌, ◌≡◌};
ghost use Rattle.figure.specs.Rounding.{IsFigure};
ghost use Rattle.path.specs.Internal.Outcomes.{named_end, judged, outcome_of};

use figure::Figure;
use model::index::Index;

// What becomes of a path, with its reason.
#[derive(Clone, Copy, PartialEq, Eq)]
pub enum Outcome {
    GeneratorsState,
    Death,
    EnteredTooOften,
    StepLimit,
    LowLevel,
    Continued,
}

// Whether the state s, which has so many exits, is one of the generator's. These have none, so that a state with exits is not looked up.
pub fn is_named_end(index: &Index, s: usize, exits: usize) -> bool
    requires { s ≤ 1000 }
    ensures { result ≡ named_end index.now s exits }
{
    exits == 0 && index.is_named(s)
}

// What becomes of a path: by whether its last state is one of the generator's, the number of exits of that state, how often it was entered before, the
// steps left below L, and U.
pub fn judge(
    named: bool,
    exits: usize,
    before: u8,
    left: usize,
    upper: Figure,
    level: Figure,
    entry_limit: u8,
) -> Outcome
    requires { IsFigure 9 upper × IsFigure 9 level }
    ensures { outcome_of result ≡ judged named exits before left upper level entry_limit }
{
    if named {
        return Outcome::GeneratorsState;
    }
    if exits == 0 {
        return Outcome::Death;
    }
    if entry_limit <= before {
        return Outcome::EnteredTooOften;
    }
    if left == 0 {
        return Outcome::StepLimit;
    }
    if upper.at_or_below(level) {
        return Outcome::LowLevel;
    }
    Outcome::Continued
}
