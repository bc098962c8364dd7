// The probabilistic OR of independent subsystems' runs, after SURE's command ORPROB: from the lower and the upper figure of each run, a lower and an
// upper figure for the probability that at least one of the subsystems fails. That they fail independently is the caller's to know.
#![tactic(auto)]

ghost use Rattle.std.specs.Prelude.{◌≡◌};
ghost use Rattle.orprob.specs.Promise as promise;
ghost use Rattle.orprob.specs.Promise.{Promised};

use figure::Figure;

mod combination;
mod pairs;

// The most pairs that are combined.
pub const MOST_PAIRS: usize = 16;

// The lower and the upper figure of one run.
#[derive(Clone, Copy)]
pub struct Pair {
    pub lower: Figure,
    pub upper: Figure,
}

// Why there are no two figures: no pair or a 17th, or a pair that is none, with its index from 0.
#[derive(Clone, Copy, PartialEq, Eq)]
pub enum OrRefusal {
    PairCountOutOfRange,
    PairOutOfRange(usize),
}

impl OrRefusal {
    // The refusal's number in document 02.
    pub fn number(self) -> u64
        ensures { result ≡ promise.number self }
    {
        match self {
            OrRefusal::PairCountOutOfRange => 17,
            OrRefusal::PairOutOfRange(_) => 18,
        }
    }

    // Its place: 0, or the index of the pair that is none.
    pub fn place(self) -> usize
        ensures { result ≡ promise.place self }
    {
        match self {
            OrRefusal::PairCountOutOfRange => 0,
            OrRefusal::PairOutOfRange(i) => i,
        }
    }
}

// The combination of the pairs: the two figures. It takes any pairs and any number of them.
pub fn probabilistic_or(pairs: &[Pair]) -> Result<Pair, OrRefusal>
    ensures { Promised pairs.now result }
{
    if !(1..=MOST_PAIRS).contains(&pairs.len()) {
        return Err(OrRefusal::PairCountOutOfRange);
    }
    match pairs::first_wrong(pairs) {
        Some(i) => Err(OrRefusal::PairOutOfRange(i)),
        None => Ok(combination::both_sides(pairs)),
    }
}
