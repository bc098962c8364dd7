// What a path brings to the report's marks: whether no operation that its upper, or its lower, rests on lost anything. They are asked for only while a
// mark can still be 1, and no longer once it is lost; so the walk's figures tell nothing, and here they are worked out again by figures that tell.
ghost use Rattle.std.specs.Prelude.{◌≡◌, []};
ghost use Rattle.tree.specs.Marks as marks;
ghost use Rattle.tables.specs.Internal.Described.{net_of};
ghost use Rattle.path.specs.Internal.Paths.{path_of};

use crate::deaths::stem_of;
use crate::exits::further;
use crate::lower::{Spent, spent_on};
use crate::prepared::Walked;
use figure::{Arithmetic, Direction, Figure, Rounded};

// The mark of the upper of a path.
pub fn upper_kept(walked: &Walked) -> bool
    ensures { result ≡ marks.upper_kept (net_of walked.now.prepared.now.words.now) (path_of (net_of walked.now.prepared.now.words.now) walked.now.path.now) }
{
    let prepared = walked.prepared;
    let time = Rounded::exact(prepared.time);
    let mut upper = Rounded::exact(Figure::of_whole(1));
    let mut ones: u64 = 0;
    for &x in walked.path {
        let j = usize::from(x);
        let step = prepared.leaving(j);
        let nth = Rounded::exact(Figure::of_whole(ones + 1));
        let share = prepared.share(j);
        let mean = prepared.mean_up(step.state);
        upper = further(step.class, nth, upper, share, mean, time);
        ones += step.class.counts_1();
    }
    upper.kept
}

// Whether nothing was lost on the way to the grains of a path's steps; those of class 1 have none.
fn grains_kept(walked: &Walked) -> bool
    ensures { result ≡ marks.all_grains_kept (marks.grains_kept (net_of walked.now.prepared.now.words.now) []) (path_of (net_of walked.now.prepared.now.words.now) walked.now.path.now) }
{
    walked
        .path
        .iter()
        .all(|&x| walked.prepared.is_grains_kept(usize::from(x)))
}

// The mark of the lower of a path. Where N' fills the mission time, only the grains count.
pub fn lower_kept(walked: &Walked) -> bool
    ensures { result ≡ marks.lower_kept (net_of walked.now.prepared.now.words.now) (path_of (net_of walked.now.prepared.now.words.now) walked.now.path.now) }
{
    let kept = grains_kept(walked);
    let spent: Spent<Rounded> = spent_on(walked);
    match stem_of(walked, spent) {
        None => kept,
        Some(stem) => {
            let lower = stem.product.times(stem.last, Direction::Down);
            kept && lower.kept
        }
    }
}
