// The table of what belongs to a state or to a transition alone, filled once, and the classes of steps.
#![tactic(auto)]

ghost use Rattle.std.specs.Prelude.{◌≡◌, ◌≤◌};
ghost use Rattle.tables.specs.Internal.Described.{exit_total};
ghost use Rattle.tables.specs.Internal.Tables.{Tabled};

use crate::figures::figure_of;
use crate::indexed::Indexed;
use crate::states::fill_states;
use crate::steps::fill_steps;
use crate::table::Table;
use figure::{Arithmetic, Rounded};
use model::index::Index;

pub mod class;
pub mod figures;
mod grains;
pub mod indexed;
mod manner;
pub mod pack;
mod states;
mod steps;
pub mod table;

// The number of transitions: that of the exits of the states 1 to `states`.
// kept: (d) states ≤ 1000, here and in two functions of `model`: any index may be asked, of any number of states up to that, and an `Accepted` may be made by
// hand.
pub fn transition_count(index: &Index, states: usize) -> usize
    requires { states ≤ 1000 }
    ensures { result ≡ exit_total index.now states }
{
    // kept: (c) `(1..=states).map(..).sum()` was tried: two goals on the run of the range stay open
    let mut total = 0;
    for s in 1..=states {
        total += index.exit_count(s);
    }
    total
}

// Fills the table for an accepted model, whatever it held.
pub fn fill(model: Indexed, table: &mut Table)
    ensures { Tabled model.entry.words.now table.new }
{
    let time = Rounded::exact(figure_of(model.accepted.time));
    fill_states(model, table);
    let count = transition_count(model.index, model.accepted.states);
    fill_steps(model, count, time, table);
}
