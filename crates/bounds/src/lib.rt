// From a model's words to a report: the index and the tables, the walk over the cut tree, the answer and the rows.
#![tactic(auto)]

ghost use Rattle.std.specs.Prelude.{◌≡◌, ◌≤◌};
ghost use Rattle.tree.specs.Internal.Tally as running;
ghost use Rattle.rows.specs.Internal.Table.{NoTotals, TableGathered};
ghost use Rattle.bounds.specs.Internal.Walk.{WalkedTree, kept_of, totals_of};
ghost use Rattle.bounds.specs.Internal.Measured.{Measured};
ghost use Rattle.bounds.specs.Answers.{Promised, marks_of, report_of};
ghost use Rattle.bounds.specs.Rows.{PromisedRows};

use crate::walk::{Task, walk};
use figure::{Arithmetic, Direction, Figure, Rounded};
use model::index::Index;
use model::read;
use path::counts::Counts;
use path::exits::Tip;
use path::prepared::Prepared;
use rows::fill_rows;
use rows::names::name_rows;
use rows::table::RowTable;
use tables::figures::figure_of;
use tables::fill;
use tables::indexed::Indexed;
use tables::table::Table;
use tree::Row;
use word::Refusal;

mod marks;
mod walk;

// The lower and the upper figure, the cut paths' part of the upper, the counts of death paths, cut paths and steps, and whether no operation that the
// lower or the upper figure rests on lost anything: then it equals its exact sum.
// kept: (d) three counts and two marks side by side, as document 01's report and every door have them; structs of them would be taken apart at each door.
#[derive(Clone, Copy, PartialEq, Eq)]
pub struct Report {
    pub lower: Figure,
    pub upper: Figure,
    pub cut: Figure,
    pub deaths: u64,
    pub cuts: u64,
    pub steps: u64,
    pub lower_exact: bool,
    pub upper_exact: bool,
}

// The counts of the walk over the tree of an accepted model, all totals kept in `rows`; none where the tree has more steps than the budget.
fn walked(model: Indexed, budget: u64, rows: &mut RowTable) -> Option<Counts>
    requires allowed { budget ≤ 1000000 }
    requires no_totals { NoTotals rows.old }
    ensures { WalkedTree model.entry.words.now budget result rows.old rows.new }
{
    let a = model.accepted;
    let mut table = Table::empty();
    fill(model, &mut table);
    let prepared = Prepared {
        words: model.words,
        index: model.index,
        table: &table,
        time: figure_of(a.time),
    };
    let task = Task {
        level: figure_of(a.prune),
        entry_limit: a.entry_limit,
        budget,
    };
    let tip = Tip {
        state: a.start,
        upper: Figure::of_whole(1),
        ones: 0,
        len: 0,
    };
    let mut entered = [0; 1001];
    entered[a.start] = 1;
    let mut path = [0; 24];
    walk(
        &prepared,
        task,
        tip,
        a.step_limit,
        entered,
        &mut path,
        Counts::default(),
        rows,
    )
}

// The figures to nine digits, and the marks with these last roundings.
fn reported(c: Counts, rows: &RowTable) -> Report
    requires { TableGathered 1000000 rows.now }
    ensures { (report_of result ≡ running.finish (totals_of c rows.now)) × (marks_of result ≡ running.finish_marks (kept_of c rows.now)) }
{
    let lowers = Rounded::marked(rows.deaths.lower, rows.lower_kept);
    let uppers = Rounded::marked(rows.deaths.upper, rows.upper_kept);
    let lower = lowers.to_nine(Direction::Down);
    let upper = uppers.sum_to_nine(Rounded::exact(rows.cuts), Direction::Up);
    Report {
        lower: lower.figure,
        upper: upper.figure,
        cut: rows.cuts.to_nine(Direction::Up),
        deaths: c.deaths,
        cuts: c.cuts,
        steps: c.steps,
        lower_exact: lower.kept,
        upper_exact: upper.kept,
    }
}

// The answer to a caller who lends so many rows, and in `rows` those to be filled, whatever it held: none where the model is refused before the walk,
// and without figures where the walk is.
fn measured(words: &[u32], budget: u64, lent: usize, rows: &mut RowTable) -> Result<Report, Refusal>
    ensures { Measured words.now words.now budget lent rows.new result }
{
    *rows = RowTable::empty();
    let mut index = Index::empty();
    let a = read(words, budget, &mut index)?;
    let model = Indexed {
        words,
        index: &index,
        accepted: a,
    };
    name_rows(model, rows);
    let needed = rows.count;
    if lent < needed {
        *rows = RowTable::empty();
        return Err(Refusal::TooFewRows(needed));
    }
    let Some(c) = walked(model, budget, rows) else {
        name_rows(model, rows);
        return Err(Refusal::OverBudget);
    };
    Ok(reported(c, rows))
}

// The report on the model that the words describe, White's lower and upper bounds summed over the paths of its cut tree and rounded outward; or a
// refusal. It takes every list of words and every budget.
// kept: (a) a list and a budget, as C hands them over.
pub fn unreliability(words: &[u32], budget: u64) -> Result<Report, Refusal>
    ensures { Promised words.now words.now budget result }
{
    let mut rows = RowTable::empty();
    measured(words, budget, 1000, &mut rows)
}

// The same, and in the caller's rows the bounds on each way to fail: the first are filled, one for each state without exits that is the target of a
// transition and none of the generator's. It takes every list of words, every budget and any number of rows.
pub fn unreliability_by_state(
    words: &[u32],
    budget: u64,
    rows: &mut [Row],
) -> Result<Report, Refusal>
    ensures { PromisedRows words.now words.now budget rows.old rows.new result }
{
    let mut table = RowTable::empty();
    let answer = measured(words, budget, rows.len(), &mut table);
    fill_rows(rows, &table);
    answer
}
