// The walk over the cut tree.
ghost use Rattle.std.specs.Prelude.{◌≡◌, take};
ghost use Rattle.path.specs.Internal.Held.{lent_by};
ghost use Rattle.bounds.specs.Internal.Walk.{Ready, WalkedBeyond, asked};

use crate::marks::{mark_cut, mark_death};
use figure::Figure;
use path::counts::Counts;
use path::deaths::Cache;
use path::exits::{Tip, exit_at};
use path::outcome::{Outcome, is_named_end, judge};
use path::prepared::{Prepared, Walked};
use rows::table::RowTable;

// What stays the same in a walk, beside what was prepared: the prune level, the entry limit and the budget.
#[derive(Clone, Copy)]
pub(crate) struct Task {
    pub level: Figure,
    pub entry_limit: u8,
    pub budget: u64,
}

// Walks every exit of the tip's state. `left` is the number of steps that the path may still take. It hands back the counts with the steps taken, and
// keeps all totals in `rows`; the entry counts go by value and are set back after each call, and the path up to the tip stays as it is. None says that it
// stopped where a step more than the budget would be taken, and what it left is of no use then.
// kept: (a) the path is an array of the longest one with the tip's length beside it, since nothing here is allocated and a slice does not grow; document 01
// names the form of the entry counts.
pub(crate) fn walk(
    prepared: &Prepared,
    task: Task,
    tip: Tip,
    left: usize,
    entries: [u8; 1001],
    path: &mut [u16; 24],
    counts: Counts,
    rows: &mut RowTable,
) -> Option<Counts>
    requires { Ready (lent_by prepared.now) (asked task tip left entries (take tip.len path.old) counts rows.old) }
    ensures { WalkedBeyond (lent_by prepared.now) (asked task tip left entries (take tip.len path.old) counts rows.old) result (take tip.len path.new) rows.new }
{
    let nth = Figure::of_whole(tip.ones + 1);
    let len = tip.len;
    let mut entered = entries;
    let mut made = counts;
    let mut cache = Cache::empty();
    let leaving = prepared.index.exits(tip.state);
    for &x in leaving {
        if made.steps == task.budget {
            return None;
        }
        let exit = exit_at(prepared, tip, nth, x);
        path[len] = exit.index;
        let next = exit.tip;
        let upper = next.upper;
        let to = next.state;
        let before = entered[to];
        let exits = prepared.index.exit_count(to);
        let named = is_named_end(prepared.index, to, exits);
        let level = task.level;
        let limit = task.entry_limit;
        let outcome = judge(named, exits, before, left - 1, upper, level, limit);
        match outcome {
            Outcome::Death => {
                let before_it = Walked {
                    prepared: &*prepared,
                    path: &path[..len],
                };
                let lower = cache.lower(&before_it, tip, nth, exit);
                mark_death(prepared, &path[..len + 1], lower, upper, rows);
                rows.note_death(to, lower, upper);
                made = made.with_death();
            }
            Outcome::Continued => {
                let so_far = made.with_step();
                entered[to] = before + 1;
                made = walk(prepared, task, next, left - 1, entered, path, so_far, rows)?;
                entered[to] = before;
            }
            Outcome::GeneratorsState
            | Outcome::EnteredTooOften
            | Outcome::StepLimit
            | Outcome::LowLevel => {
                mark_cut(prepared, &path[..len + 1], upper, rows);
                rows.note_cut(upper);
                made = made.with_cut();
            }
        }
    }
    Some(made)
}
