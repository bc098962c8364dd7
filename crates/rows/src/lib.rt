// The rows of a model, one for each state without exits that is the target of a transition and none of the generator's: which they are, their totals,
// and the caller's rows filled from them.
#![tactic(auto)]

ghost use Rattle.std.specs.Prelude.{◌≡◌, length};
ghost use Rattle.tree.specs.Rows.{laid_over};
ghost use Rattle.rows.specs.Internal.Filling.{Fits, rows_in};

use crate::table::RowTable;
use tree::Row;

pub mod names;
pub mod table;

// Fills the caller's first rows with the table's; those beyond them are unchanged.
pub fn fill_rows(rows: &mut [Row], table: &RowTable)
    requires { Fits table.now (length rows.old) }
    ensures { rows.new ≡ laid_over (rows_in table.now) rows.old }
{
    // kept: (c) by index, since of rows that an adapter of `iter_mut` lends nothing is known after the loop; tried
    for (i, state) in table.states[..table.count].iter().enumerate() {
        rows[i] = table.row(*state);
    }
}
