// The figures of the quantities that stand in the words.
ghost use Rattle.std.specs.Prelude.{◌≡◌, ◌<◌, ◌≤◌, get_or};
ghost use Rattle.figure.specs.Operations.{of_whole};
ghost use Rattle.word.specs.Words.{coefficient_field, quantity};
ghost use Rattle.tree.specs.States as states;
ghost use Rattle.tables.specs.Internal.Told.{exact};

use figure::{Arithmetic, Figure, Rounded};
use word::Quantity;
use word::fields::quantity_at;

// kept: (d) a function and no `From`, since neither of the two types is of this crate.
pub fn figure_of(q: Quantity) -> Figure
    requires { q.scale ≤ 255 }
    ensures { result ≡ states.figure_of q }
{
    Figure::of_quantity(q.coefficient, q.scale)
}

// The figure of the quantity that a part of the words begins with, of which nothing is lost.
pub(crate) fn figure_at(part: &[u32]) -> Rounded
    requires { coefficient_field (get_or part.now 0 0) < 1000000 }
    ensures { result ≡ exact (states.figure_of (quantity (get_or part.now 0 0))) }
{
    let q = quantity_at(part);
    Rounded::exact(figure_of(q))
}

// A whole number of at most nine digits, of which nothing is lost.
pub(crate) fn whole(n: u64) -> Rounded
    ensures { result ≡ exact (of_whole n) }
{
    Rounded::exact(Figure::of_whole(n))
}
