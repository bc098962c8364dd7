// What the words say of a transition beside the states that it leaves and reaches.
ghost use Rattle.std.specs.Prelude.{◌≡◌};
ghost use Rattle.model.specs.Index.{transition_at};
ghost use Rattle.tables.specs.Internal.Described.{StandsFirst};
ghost use Rattle.tables.specs.Internal.Manners.{SpreadSized, manner_of};
ghost use Rattle.tables.specs.Internal.Told.{moment_of};

use crate::figures::figure_at;
use figure::{Arithmetic, Direction, Rounded};
use word::fields::is_fast;

// The mean, the deviation and the probability of a fast transition.
#[derive(Clone, Copy)]
pub(crate) struct Spread {
    pub mean: Rounded,
    pub deviation: Rounded,
    pub probability: Rounded,
}

impl Spread {
    // M = m² + d².
    pub(crate) fn second_moment(self) -> Rounded
        requires { SpreadSized 1000 self }
        ensures { result ≡ moment_of self.mean self.deviation }
    {
        let square = self.mean.times(self.mean, Direction::Up);
        let other = self.deviation.times(self.deviation, Direction::Up);
        square.plus(other, Direction::Up)
    }
}

// The rate of a slow transition, or what a fast one has.
#[derive(Clone, Copy)]
pub(crate) enum Manner {
    Slow(Rounded),
    Fast(Spread),
}

impl Manner {
    // That of the transition whose word a part of the words begins with.
    // Built in at its two calls: as a function of its own it put what it answers into memory, and 4,000 slow transitions took 1.2 times as long.
    #[inline(always)]
    pub(crate) fn at(part: &[u32]) -> Manner
        requires { StandsFirst part.now }
        ensures { result ≡ manner_of (transition_at part.now).manner }
    {
        if is_fast(part[0]) {
            let mean = figure_at(&part[1..]);
            let deviation = figure_at(&part[2..]);
            let probability = figure_at(&part[3..]);
            return Manner::Fast(Spread {
                mean,
                deviation,
                probability,
            });
        }
        Manner::Slow(figure_at(&part[1..]))
    }
}
