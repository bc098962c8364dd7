// The lower of a death path, in two parts: its stem, which it shares with the deaths that leave the same state by the same class and with the same
// grains, and what its own last step adds.
ghost use Rattle.std.specs.Prelude.{◌≡◌, ◌∷◌, ℕ, ◌+◌, ◌<◌, ◌≤◌, Bool};
ghost use Rattle.figure.specs.declared.Figure.{Figure};
ghost use Rattle.figure.specs.Operands.{Sized};
ghost use Rattle.figure.specs.Operations as ops;
ghost use Rattle.word.specs.Model.{Net};
ghost use Rattle.model.specs.Index.{transition};
ghost use Rattle.tree.specs.Paths.{Path};
ghost use Rattle.tree.specs.Lower as bound;
ghost use Rattle.tables.specs.Internal.Classes.{class_for};
ghost use Rattle.tables.specs.Internal.Described.{net_of};
ghost use Rattle.path.specs.Internal.Held.{lent_by};
ghost use Rattle.path.specs.Internal.Paths.{path_of};
ghost use Rattle.path.specs.Internal.Deaths.{AnyStemSized, Cached, LastStep, StemIs, death_lower, stem_for};

use crate::exits::{Exit, Tip};
use crate::lower::{Spent, last_factor, product, spent_on};
use crate::prepared::{Leaving, Walked};
use figure::{Arithmetic, Direction, Figure};
use tables::class::Class;

// What the deaths share that leave one state by one class and with the same grains, where N' leaves some of the mission time: down(t), the product up to
// that state and the last factor. Where N' fills the mission time their lowers are 0, and they have no stem.
#[derive(Clone, Copy)]
pub struct Stem<A> {
    pub time: Figure,
    pub product: A,
    pub last: A,
}

// What is known of the deaths that leave the walk's state by a slow exit: once the first was met, their stem, or that they have none.
#[derive(Clone, Copy)]
pub struct Cache {
    pub slow: Option<Option<Stem<Figure>>>,
}

// The stem of N', A and k, with the product along a path.
pub(crate) fn stem_of<A: Arithmetic>(walked: &Walked, spent: Spent<A>) -> Option<Stem<A>>
    requires { Sized 9 1000 (A.figure_of spent.rates) × (spent.ones ≤ 24) }
    ensures { (a : Figure) (b : Bool) → A.Is spent.rates a b → StemIs A.Is (net_of walked.now.prepared.now.words.now) (path_of (net_of walked.now.prepared.now.words.now) walked.now.path.now) spent.grains a b spent.ones result }
{
    if 1_000_000 <= spent.grains {
        return None;
    }
    let mission = A::exact(walked.prepared.time);
    let rest = A::exact(Figure::of_whole(1_000_000 - spent.grains));
    let time = mission.times(rest, Direction::Down).times_ten(-6).figure();
    let above = mission.times(rest, Direction::Up).times_ten(-6);
    Some(Stem {
        time,
        product: product(walked, time),
        last: last_factor(above, spent.rates, spent.ones),
    })
}

// The stem of the death by `exit` after the path that ends at the tip, worked out along the path.
// kept: (d) the walked path, its tip and the exit apart: this function and `Cache::lower` alone take the three.
// Built in at its two calls: as a function of its own it cost the benchmark's tree of 1,000 states a seventh of its time, and that of long paths to deaths a
// sixteenth.
#[inline(always)]
fn new_stem(walked: &Walked, tip: Tip, exit: Exit) -> Option<Stem<Figure>>
    requires { LastStep (lent_by walked.now.prepared.now) walked.now.path.now tip exit }
    ensures stem_is { result ≡ stem_for (net_of walked.now.prepared.now.words.now) walked.now.path.now tip exit }
    ensures stem_sized { AnyStemSized result }
{
    let so_far: Spent<Figure> = spent_on(walked);
    let last = Leaving {
        class: exit.class,
        state: tip.state,
    };
    let spent = so_far.with_step(walked.prepared, usize::from(exit.index), last);
    stem_of(walked, spent)
}

// The lower of a death path from its stem, its last step being of a class, with its share and factor; it is the nth of class 1 if it is of class 1.
// Built in at its three calls: as a function of its own it cost the trees of deaths 3 to 5 percent.
#[inline(always)]
fn lower_of(
    stem: &Option<Stem<Figure>>,
    class: Class,
    share: Figure,
    factor: Figure,
    nth: Figure,
) -> Figure
    requires { AnyStemSized stem.now × Sized 9 2000 share × Sized 9 2000 factor × Sized 9 2000 nth × (0 < nth.digits) }
    ensures { result ≡ death_lower stem.now (class_for class) share factor nth }
{
    let Some(shared) = stem else {
        return Figure::zero();
    };
    let p = shared.product;
    let last = shared.last;
    if class.is_class1() {
        return p
            .times(share, Direction::Down)
            .times(shared.time, Direction::Down)
            .divided(nth, Direction::Down)
            .times(last, Direction::Down);
    }
    p.times(factor, Direction::Down)
        .times(last, Direction::Down)
}

impl Cache {
    // A cache of which nothing is known.
    pub fn empty() -> Cache
        ensures { (net : Net) (p : Path) (s : ℕ) → Cached net p s result }
    {
        Cache { slow: None }
    }

    // The lower of the death by `exit` after the path that ends at the tip, the nth step of class 1 if it is of class 1. A slow exit's stem is kept for the
    // deaths that follow.
    pub fn lower(&mut self, walked: &Walked, tip: Tip, nth: Figure, exit: Exit) -> Figure
        requires last_step { LastStep (lent_by walked.now.prepared.now) walked.now.path.now tip exit × (nth ≡ ops.of_whole (tip.ones + 1)) }
        requires cached { Cached (net_of walked.now.prepared.now.words.now) (path_of (net_of walked.now.prepared.now.words.now) walked.now.path.now) tip.state self.old }
        ensures lower_value { result ≡ bound.lower (net_of walked.now.prepared.now.words.now) (transition (net_of walked.now.prepared.now.words.now) exit.index ∷ path_of (net_of walked.now.prepared.now.words.now) walked.now.path.now) }
        ensures cached_still { Cached (net_of walked.now.prepared.now.words.now) (path_of (net_of walked.now.prepared.now.words.now) walked.now.path.now) tip.state self.new }
    {
        let prepared = walked.prepared;
        let j = usize::from(exit.index);
        let share = prepared.share(j);
        let factor = prepared.factor(j);
        if !exit.class.is_slow() {
            let stem = new_stem(walked, tip, exit);
            return lower_of(&stem, exit.class, share, factor, nth);
        }
        // kept: (c) tried as `get_or_insert_with` with a closure: of its `F.post` the proof was given nothing, so not which stem the cache has then.
        match &self.slow {
            Some(kept) => lower_of(kept, exit.class, share, factor, nth),
            None => {
                let stem = new_stem(walked, tip, exit);
                self.slow = Some(stem);
                lower_of(&stem, exit.class, share, factor, nth)
            }
        }
    }
}
