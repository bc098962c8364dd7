// What depends on a transition alone: its share, its factor in a lower and its grains, with their marks, once for each transition.
ghost use Rattle.std.specs.Prelude.{◌≡◌, ◌<◌, ◌≤◌, length};
ghost use Rattle.figure.specs.Operands.{Sized};
ghost use Rattle.model.specs.Index.{transition};
ghost use Rattle.tables.specs.Internal.Described.{net_of};
ghost use Rattle.tables.specs.Internal.Manners.{SpreadSized};
ghost use Rattle.tables.specs.Internal.Tables.{Tabled};
ghost use Rattle.tables.specs.Internal.Steps as by;
ghost use Rattle.tables.specs.Internal.Steps.{StepPacked, StepReady, StepSized};

use crate::figures::whole;
use crate::grains::{Power, least};
use crate::indexed::Indexed;
use crate::manner::{Manner, Spread};
use crate::pack::Packed;
use crate::table::{StepEntry, Table};
use figure::{Arithmetic, Direction, Figure, Rounded};
use word::fields::{from, word_at};

// An exit's rate or probability, its grains with their mark, and its factor in a lower with its own.
// kept: (d) `grains_kept` beside `grains` is a mark, which says whether anything was lost, and not a flag that says whether the value is there
#[derive(Clone, Copy)]
struct Step {
    pub share: Rounded,
    pub grains: u64,
    pub grains_kept: bool,
    pub factor: Rounded,
}

impl Step {
    // As the table holds it.
    fn packed(self) -> StepEntry
        requires { StepSized self }
        ensures { StepPacked self result }
    {
        StepEntry {
            share: Packed::of(self.share),
            factor: Packed::of(self.factor),
            grains: Packed::of_count(self.grains, self.grains_kept),
        }
    }
}

// What class 2 takes off 1, of E, the mean, M, T2 and n grains.
// kept: (d) here and below a formula asks of its operands nine digits and a power from -2,001 to 2,000 (`Sized`), of a divisor that it is above zero, and from
// 1 to 1,000,000 grains. What comes in has another range, an exit's 40, a state's 500, an operation's result its own, so that a type with these bounds would be
// made anew, and proved, at each call. They stand side by side as the formulas of document 01 name them.
fn class2_loss(rate: Rounded, mean: Rounded, moment: Rounded, time2: Rounded, n: u64) -> Rounded
    requires sized { Sized 9 2000 rate.figure × Sized 9 2000 mean.figure × Sized 9 2000 moment.figure × Sized 9 2000 time2.figure }
    requires digits_nonzero { (0 < time2.figure.digits) × (1 ≤ n) × (n ≤ 1000000) }
    ensures { result ≡ by.class2_loss_of rate mean moment time2 n }
{
    let square = Rounded::of_whole(n * n).times(time2, Direction::Down);
    let rest = moment.divided(square, Direction::Up).times_ten(12);
    rate.times(mean, Direction::Up).plus(rest, Direction::Up)
}

// What class 3 takes off h', of E, H, T and n grains.
fn class3_loss(rate: Rounded, moment: Rounded, time: Rounded, n: u64) -> Rounded
    requires sized { Sized 9 2000 rate.figure × Sized 9 2000 moment.figure × Sized 9 2000 time.figure }
    requires digits_nonzero { (0 < time.figure.digits) × (1 ≤ n) × (n ≤ 1000000) }
    ensures { result ≡ by.class3_loss_of rate moment time n }
{
    let half = rate
        .times(moment, Direction::Up)
        .divided(whole(2), Direction::Up);
    let span = whole(n).times(time, Direction::Down);
    half.plus(
        moment.divided(span, Direction::Up).times_ten(6),
        Direction::Up,
    )
}

// g's quotient by T2 for class 2, up(up(2 × M) / T2), of M and T2.
fn class2_quotient(moment: Rounded, time2: Rounded) -> Rounded
    requires { Sized 9 2000 moment.figure × Sized 9 2000 time2.figure × (0 < time2.figure.digits) }
    ensures { result ≡ by.class2_quotient_of moment time2 }
{
    whole(2)
        .times(moment, Direction::Up)
        .divided(time2, Direction::Up)
}

// g's quotient for class 3, up(H / down(h' × T)), of H, h' and T.
fn class3_quotient(moment: Rounded, mean: Rounded, time: Rounded) -> Rounded
    requires sized { Sized 9 2000 moment.figure × Sized 9 2000 mean.figure × Sized 9 2000 time.figure }
    requires digits_nonzero { (0 < mean.figure.digits) × (0 < time.figure.digits) }
    ensures { result ≡ by.class3_quotient_of moment mean time }
{
    moment.divided(mean.times(time, Direction::Down), Direction::Up)
}

// A factor: the share times what a loss leaves of a whole.
fn factor_of(share: Rounded, all: Rounded, loss: Rounded) -> Rounded
    requires { Sized 9 2000 share.figure × Sized 9 2000 all.figure × Sized 9 2000 loss.figure }
    ensures { result ≡ by.factor_of share all loss }
{
    share.times(all.minus(loss, Direction::Down), Direction::Down)
}

// Class 2: a fast exit of a state whose E is `rate`.
fn class2_step(exit: Spread, rate: Rounded, time: Rounded) -> Step
    requires { SpreadSized 40 exit × Sized 9 500 rate.figure × Sized 9 40 time.figure × (0 < time.figure.digits) }
    ensures { result ≡ by.class2_step_of rate time exit }
{
    let moment = exit.second_moment();
    let time2 = time.times(time, Direction::Down);
    let quotient = class2_quotient(moment, time2);
    let goal = quotient.figure;
    let n = least(Power::Cube, goal.times_ten(18));
    let y = class2_loss(rate, exit.mean, moment, time2, n);
    Step {
        share: exit.probability,
        grains: n,
        grains_kept: quotient.kept,
        factor: factor_of(exit.probability, whole(1), y),
    }
}

// Class 3: a slow exit of a state with E, h' and H.
fn class3_step(share: Rounded, rate: Rounded, mean: Rounded, moment: Rounded, time: Rounded) -> Step
    requires sized { Sized 9 40 share.figure × Sized 9 500 rate.figure × Sized 9 500 mean.figure × Sized 9 500 moment.figure × Sized 9 40 time.figure }
    requires digits_nonzero { (0 < mean.figure.digits) × (0 < time.figure.digits) }
    ensures { result ≡ by.class3_step_of rate mean moment time share }
{
    let quotient = class3_quotient(moment, mean, time);
    let goal = quotient.figure;
    let n = least(Power::Square, goal.times_ten(12));
    let y = class3_loss(rate, moment, time, n);
    Step {
        share,
        grains: n,
        grains_kept: quotient.kept,
        factor: factor_of(share, mean, y),
    }
}

// The step of the transition j of a model; the table has the sums of the states.
fn step_at(model: Indexed, j: usize, time: Rounded, table: &Table) -> Step
    requires { StepReady model.words.now time table.now × (j < length (net_of model.words.now).table) }
    ensures { result ≡ by.step_of (net_of model.entry.words.now) (transition (net_of model.entry.words.now) j) }
{
    let part = model.part(j);
    let state = table.states[from(word_at(part))];
    let rate: Rounded = state.rate.value();
    match Manner::at(part) {
        Manner::Fast(exit) => class2_step(exit, rate, time),
        Manner::Slow(share) => {
            let mean: Rounded = state.mean_down.value();
            if mean.figure.digits == 0 {
                return Step {
                    share,
                    grains: 0,
                    grains_kept: true,
                    factor: Rounded::exact(Figure::zero()),
                };
            }
            class3_step(share, rate, mean, state.moment.value(), time)
        }
    }
}

// The steps of the first `count` transitions, put into the table beside the sums of the states.
pub(crate) fn fill_steps(model: Indexed, count: usize, time: Rounded, table: &mut Table)
    requires { StepReady model.words.now time table.old × (count ≡ length (net_of model.words.now).table) }
    ensures { Tabled model.entry.words.now table.new }
{
    for j in 0..count {
        let x = step_at(model, j, time, table);
        table.steps[j] = x.packed();
    }
}
