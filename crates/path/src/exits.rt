// One exit of the state at a path's end, and the end of the path beyond it.
ghost use Rattle.std.specs.Prelude.{◌≡◌, ◌+◌, ◌<◌, ◌&&◌, Bool, true};
ghost use Rattle.figure.specs.declared.Figure.{Figure};
ghost use Rattle.figure.specs.Operands.{Sized};
ghost use Rattle.figure.specs.Operations as ops;
ghost use Rattle.tables.specs.Internal.Classes.{class_for};
ghost use Rattle.path.specs.Internal.Held.{lent_by};
ghost use Rattle.path.specs.Internal.Exits.{ExitOf, ExitReady, tip_by, upper_by};
ghost use Rattle.path.specs.Internal.Marks.{upper_by_kept};

use crate::prepared::Prepared;
use figure::{Arithmetic, Direction, Figure};
use tables::class::Class;
use word::fields::{is_fast, to};

// The end of a path: its last state, its rounded upper, its class 1 steps and its steps.
#[derive(Clone, Copy)]
pub struct Tip {
    pub state: usize,
    pub upper: Figure,
    pub ones: u64,
    pub len: usize,
}

// An exit of a state: the index of its transition, its class and the tip beyond it.
#[derive(Clone, Copy)]
pub struct Exit {
    pub index: u16,
    pub class: Class,
    pub tip: Tip,
}

// U one step further: by a step of the class `class`, the nth of class 1 if it is of class 1, with its share, h of the state that it leaves and T. The walk
// takes it for figures alone, the marks for figures that tell.
pub(crate) fn further<A: Arithmetic>(
    class: Class,
    nth: A,
    upper: A,
    share: A,
    mean: A,
    time: A,
) -> A
    requires { Sized 9 20000 (A.figure_of upper) × Sized 9 1000 (A.figure_of share) × Sized 9 1000 (A.figure_of mean) × Sized 9 1000 (A.figure_of time) × Sized 9 2000 (A.figure_of nth) × (0 < (A.figure_of nth).digits) }
    ensures { (n u s m t : Figure) (k h : Bool) → A.Is nth n true → A.Is upper u k → A.Is share s true → A.Is mean m h → A.Is time t true → A.Is result (upper_by (class_for class) n u s m t) (k && upper_by_kept (class_for class) n u s m h t) }
{
    let by_share = upper.times(share, Direction::Up);
    match class {
        Class::Class1 => by_share
            .times(time, Direction::Up)
            .divided(nth, Direction::Up),
        Class::Class2 => by_share,
        Class::Class3 => by_share.times(mean, Direction::Up),
    }
}

// The exit of the tip's state that is transition x: its kind and its target stand in its word; nth is the number of the next class 1 step.
// kept: (d) nth beside the tip: worked out once for all exits of a state; a struct of both would be one type more for this function and `Cache::lower` alone.
pub fn exit_at(prepared: &Prepared, tip: Tip, nth: Figure, x: u16) -> Exit
    requires { ExitReady (lent_by prepared.now) tip x × (nth ≡ ops.of_whole (tip.ones + 1)) }
    ensures { ExitOf (lent_by prepared.now) tip x result }
{
    let j = usize::from(x);
    let w = prepared.index.word_of(prepared.words, j);
    let mean = prepared.table.states[tip.state].mean_up.figure();
    let class = Class::of(is_fast(w), mean);
    let share: Figure = prepared.share(j);
    Exit {
        index: x,
        class,
        tip: Tip {
            state: to(w),
            upper: further(class, nth, tip.upper, share, mean, prepared.time),
            ones: class.counts_1() + tip.ones,
            len: tip.len + 1,
        },
    }
}
