// Which states have rows.
ghost use Rattle.std.specs.Prelude.{◌≡◌, length, ◌≤◌};
ghost use Rattle.tables.specs.Internal.Described.{described, net_of};
ghost use Rattle.rows.specs.Internal.Names.{Targets, marked, Named};

use crate::table::RowTable;
use model::index::Index;
use tables::indexed::Indexed;
use tables::transition_count;
use word::fields::to;

// Which states are targets of the transitions.
fn targets(model: Indexed, transitions: usize) -> [bool; 1001]
    requires { transitions ≡ length (net_of model.words.now).table }
    ensures { Targets (net_of model.entry.words.now).table transitions result }
{
    let mut targets = [false; 1001];
    for j in 0..transitions {
        targets[to(model.index.word_of(model.words, j))] = true;
    }
    targets
}

// Whether the state s has a row: it is none of the generator's, has no exits, and is a target.
fn has_row(index: &Index, targets: &[bool; 1001], s: usize) -> bool
    requires { s ≤ 1000 }
    ensures { result ≡ marked index.now targets.now s }
{
    !index.is_named(s) && index.exit_count(s) == 0 && targets[s]
}

// Makes the table of an accepted model's rows, whatever it held, their totals zero.
pub fn name_rows(model: Indexed, table: &mut RowTable)
    ensures { Named (described model.entry.words.now) table.new }
{
    *table = RowTable::empty();
    let states = model.accepted.states;
    let targets = targets(model, transition_count(model.index, states));
    for s in 1..=states {
        if has_row(model.index, &targets, s) {
            table.add_row(s);
        }
    }
}
