// What a path's lower rests on: N', A and the product of the factors, along its steps. The walk takes A and the product for figures alone, the marks for
// figures that tell.
ghost use Rattle.std.specs.Prelude.{◌≡◌, ◌<◌, ◌≤◌, ◌∷◌, Bool};
ghost use Rattle.figure.specs.declared.Figure.{Figure};
ghost use Rattle.figure.specs.Operands.{Sized};
ghost use Rattle.tree.specs.Lower as bound;
ghost use Rattle.tree.specs.Marks as marks;
ghost use Rattle.tables.specs.Internal.Described.{net_of};
ghost use Rattle.path.specs.Internal.Paths.{own_grains, path_of};
ghost use Rattle.path.specs.Internal.Marks.{last_of, last_of_kept};
ghost use Rattle.path.specs.Internal.Spent.{Leaves, SpentIs};

use crate::prepared::{Leaving, Prepared, Walked};
use figure::{Arithmetic, Direction, Figure};

// N', A and k of a path.
#[derive(Clone, Copy)]
pub(crate) struct Spent<A> {
    pub grains: u64,
    pub rates: A,
    pub ones: u64,
}

impl<A: Arithmetic> Spent<A> {
    ghost use Rattle.tree.specs.Paths.{Path};
    ghost use Rattle.model.specs.Index.{transition};

    // With one step more, the transition j: one of class 1 brings E of the state that it leaves, and counts; another brings its grains.
    // Built in at both calls: handed over and back in memory, N', A and k cost the deaths 3 to 7 percent.
    #[inline(always)]
    pub(crate) fn with_step(self, prepared: &Prepared, j: usize, step: Leaving) -> Spent<A>
        requires leaves { Leaves (net_of prepared.now.words.now) j step }
        requires room { Sized 9 1000 (A.figure_of self.rates) × (self.ones < 24) × (self.grains ≤ 24000000) }
        ensures { (p : Path) → SpentIs A.Is (net_of prepared.now.words.now) p self → SpentIs A.Is (net_of prepared.now.words.now) (transition (net_of prepared.now.words.now) j ∷ p) result }
    {
        if step.class.is_class1() {
            let own = prepared.rate_sum(step.state);
            return Spent {
                rates: self.rates.plus(own, Direction::Up),
                ones: self.ones + 1,
                ..self
            };
        }
        Spent {
            grains: self.grains + prepared.grains(j),
            ..self
        }
    }
}

// What the steps of a path have spent.
pub(crate) fn spent_on<A: Arithmetic>(walked: &Walked) -> Spent<A>
    ensures { SpentIs A.Is (net_of walked.now.prepared.now.words.now) (path_of (net_of walked.now.prepared.now.words.now) walked.now.path.now) result }
{
    let mut spent = Spent {
        grains: 0,
        rates: A::exact(Figure::zero()),
        ones: 0,
    };
    for &x in walked.path {
        let j = usize::from(x);
        spent = spent.with_step(walked.prepared, j, walked.prepared.leaving(j));
    }
    spent
}

// The product of a path's factors, t being down(t).
pub(crate) fn product<A: Arithmetic>(walked: &Walked, t: Figure) -> A
    requires { Sized 9 100 t }
    ensures { A.Is result (bound.lower_product (net_of walked.now.prepared.now.words.now) (own_grains (net_of walked.now.prepared.now.words.now)) t (path_of (net_of walked.now.prepared.now.words.now) walked.now.path.now)) (marks.lower_product_kept (net_of walked.now.prepared.now.words.now) (own_grains (net_of walked.now.prepared.now.words.now)) t (path_of (net_of walked.now.prepared.now.words.now) walked.now.path.now)) }
{
    let time = A::exact(t);
    let mut p = A::exact(Figure::of_whole(1));
    let mut k: u64 = 0;
    for &x in walked.path {
        let j = usize::from(x);
        if walked.prepared.leaving(j).class.is_class1() {
            k += 1;
            p = p
                .times(walked.prepared.share(j), Direction::Down)
                .times(time, Direction::Down)
                .divided(A::exact(Figure::of_whole(k)), Direction::Down);
        } else {
            p = p.times(walked.prepared.factor(j), Direction::Down);
        }
    }
    p
}

// down(1 - b), b = up(up(up(t) * A) / (k + 1)), above being up(t).
pub(crate) fn last_factor<A: Arithmetic>(above: A, rates: A, k: u64) -> A
    requires { Sized 9 100 (A.figure_of above) × Sized 9 2000 (A.figure_of rates) × (k ≤ 24) }
    ensures { (t a : Figure) (l m : Bool) → A.Is above t l → A.Is rates a m → A.Is result (last_of t a k) (last_of_kept t l a m k) }
{
    let count = A::exact(Figure::of_whole(k + 1));
    let b = above
        .times(rates, Direction::Up)
        .divided(count, Direction::Up);
    A::exact(Figure::of_whole(1)).minus(b, Direction::Down)
}
