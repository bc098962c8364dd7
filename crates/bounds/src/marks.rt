// What an ended path brings to the report's marks, which are kept in the table of totals. A path is looked at only while its mark can still be 1.
ghost use Rattle.std.specs.Prelude.{◌≡◌, IfSome, Some, None};
ghost use Rattle.figure.specs.Operands.{Sized, Operand};
ghost use Rattle.figure.specs.Losses.{total_keeps};
ghost use Rattle.tables.specs.Internal.Described.{net_of};
ghost use Rattle.path.specs.Internal.Paths.{path_of, Known};
ghost use Rattle.rows.specs.Internal.Table.{TableGathered};
ghost use Rattle.bounds.specs.Internal.Marks.{EndedNoted};

use figure::{Arithmetic, Direction, Figure, Rounded};
use path::marks::{lower_kept, upper_kept};
use path::prepared::{Prepared, Walked};
use rows::table::RowTable;

// Whether nothing is lost by adding a figure to a total. A mark is the same of both directions.
fn adds_exactly(total: Figure, figure: Figure) -> bool
    requires { Operand 18 total × Operand 9 figure }
    ensures { result ≡ total_keeps total figure }
{
    let sum = Rounded::exact(total).total(Rounded::exact(figure), Direction::Up);
    sum.kept
}

// Notes in the marks an ended path, before it is added to the totals: a death, which has a lower, or a cut, on which the report's lower does not rest.
// kept: (d) one function for both, though it asks twice which it is: in two, what is asked of an upper would stand twice. Tried too: the compiler built the
// two into the walk, where the tree of cuts took 1.09 times as long, and those of deaths up to 1.02.
fn mark_ended(walked: &Walked, lower: Option<Figure>, upper: Figure, rows: &mut RowTable)
    requires { TableGathered 999999 rows.old × IfSome lower (Sized 9 35000) × Sized 9 35000 upper }
    ensures { EndedNoted lower (net_of walked.now.prepared.now.words.now) (path_of (net_of walked.now.prepared.now.words.now) walked.now.path.now) upper rows.old rows.new }
{
    let uppers = match lower {
        Some(_) => rows.deaths.upper,
        None => rows.cuts,
    };
    let upper_stays = rows.upper_kept && upper_kept(walked) && adds_exactly(uppers, upper);
    let lower_stays = match lower {
        Some(lower) => {
            rows.lower_kept && lower_kept(walked) && adds_exactly(rows.deaths.lower, lower)
        }
        None => true,
    };
    rows.note_marks(lower_stays, upper_stays);
}

// Notes a death in the marks, while one of them can still be 1.
// kept: (d) what a `Walked` has is lent apart, here and below, since there is need of one behind the test alone, which fails at all but a few paths of a large
// tree. Tried too: with one that the walk makes before the test the tree of cuts took 1.04 times as long.
pub(crate) fn mark_death(
    prepared: &Prepared,
    path: &[u16],
    lower: Figure,
    upper: Figure,
    rows: &mut RowTable,
)
    requires { Known (net_of prepared.now.words.now) path.now × TableGathered 999999 rows.old × Sized 9 35000 lower × Sized 9 35000 upper }
    ensures { EndedNoted (Some lower) (net_of prepared.now.words.now) (path_of (net_of prepared.now.words.now) path.now) upper rows.old rows.new }
{
    if rows.is_open() {
        let ended = Walked {
            prepared: &*prepared,
            path,
        };
        mark_ended(&ended, Some(lower), upper, rows);
    }
}

// Notes a cut in the marks, while that of the upper can still be 1.
pub(crate) fn mark_cut(prepared: &Prepared, path: &[u16], upper: Figure, rows: &mut RowTable)
    requires { Known (net_of prepared.now.words.now) path.now × TableGathered 999999 rows.old × Sized 9 35000 upper }
    ensures { EndedNoted None (net_of prepared.now.words.now) (path_of (net_of prepared.now.words.now) path.now) upper rows.old rows.new }
{
    if rows.upper_kept {
        let ended = Walked {
            prepared: &*prepared,
            path,
        };
        mark_ended(&ended, None, upper, rows);
    }
}
