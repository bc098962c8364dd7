// What is summed over the exits of a state, once for each state.
ghost use Rattle.std.specs.Prelude.{◌≡◌, ◌≤◌};
ghost use Rattle.model.specs.Index.{transition_at};
ghost use Rattle.tables.specs.Internal.Described.{StandsFirst, described, net_of};
ghost use Rattle.tables.specs.Internal.Tables.{StatesHold};
ghost use Rattle.tables.specs.Internal.Sums.{SumsPacked, SumsSized, add_exit, sums};

use crate::indexed::Indexed;
use crate::manner::Manner;
use crate::pack::Packed;
use crate::table::{StateEntry, Table};
use figure::{Arithmetic, Direction, Figure, Rounded};

// E, h rounded up, h rounded down (h') and H of a state, each with its mark.
#[derive(Clone, Copy)]
struct Sums {
    pub rate: Rounded,
    pub up: Rounded,
    pub down: Rounded,
    pub moment: Rounded,
}

impl Sums {
    // The sums with one exit more; part begins at the transition's word.
    fn with_exit(self, part: &[u32]) -> Sums
        requires { StandsFirst part.now × SumsSized 10000 self }
        ensures { result ≡ add_exit self (transition_at part.now).manner }
    {
        match Manner::at(part) {
            Manner::Slow(rate) => Sums {
                rate: self.rate.plus(rate, Direction::Up),
                ..self
            },
            Manner::Fast(exit) => {
                let q = exit.probability;
                let m = exit.mean;
                let up = self.up.plus(q.times(m, Direction::Up), Direction::Up);
                let down = self.down.plus(q.times(m, Direction::Down), Direction::Down);
                let product = q.times(exit.second_moment(), Direction::Up);
                let moment = self.moment.plus(product, Direction::Up);
                Sums {
                    up,
                    down,
                    moment,
                    ..self
                }
            }
        }
    }

    // As the table holds them.
    fn packed(self) -> StateEntry
        requires { SumsSized 100000 self }
        ensures { SumsPacked self result }
    {
        StateEntry {
            rate: Packed::of(self.rate),
            mean_up: Packed::of(self.up),
            mean_down: Packed::of(self.down),
            moment: Packed::of(self.moment),
        }
    }
}

// The sums over the exits of the state s.
fn sums_of(model: Indexed, s: usize) -> Sums
    requires { s ≤ 1000 }
    ensures { result ≡ sums (net_of model.entry.words.now) s }
{
    let nothing = Rounded::exact(Figure::zero());
    let mut so_far = Sums {
        rate: nothing,
        up: nothing,
        down: nothing,
        moment: nothing,
    };
    for j in model.index.exits(s) {
        so_far = so_far.with_exit(model.part(usize::from(*j)));
    }
    so_far
}

// E, h, h' and H of each state, put into the table.
pub(crate) fn fill_states(model: Indexed, table: &mut Table)
    ensures { StatesHold (net_of model.entry.words.now) (described model.entry.words.now).states table.new }
{
    for s in 1..=model.accepted.states {
        let x = sums_of(model, s);
        table.states[s] = x.packed();
    }
}
