// The table of totals: how many rows there are and the state of each; the report's totals of eighteen digits, of the lowers and the uppers of death
// paths and of the uppers of cut paths, with the report's two marks; and for each state from 0 to 1,000 the totals of the death paths that end in it.
ghost use Rattle.std.specs.Prelude.{◌≡◌, ◌||◌, ◌≤◌, ◌<◌};
ghost use Rattle.figure.specs.Operands.{Sized};
ghost use Rattle.rows.specs.Internal.Table.{Empty, TotalsWith, SumsGathered, TableGathered, DeathNoted, CutNoted, MarksNoted, RowAdded};
ghost use Rattle.rows.specs.Internal.Filling.{RowFits, row_of};

use figure::{Direction, Figure};
use tree::Row;

// The totals of the lowers and of the uppers of some death paths.
#[derive(Clone, Copy)]
pub struct Sums {
    pub lower: Figure,
    pub upper: Figure,
}

impl Sums {
    // The totals of no path.
    const NONE: Sums = Sums {
        lower: Figure {
            digits: 0,
            power: 0,
        },
        upper: Figure {
            digits: 0,
            power: 0,
        },
    };

    // With one death path more.
    // kept: (d) two figures and no struct, here, in `note_death` and in `mark_death` of `bounds`: each goes to its own total, rounded its own way.
    fn with(self, lower: Figure, upper: Figure) -> Sums
        requires { SumsGathered 999999 self × Sized 9 35000 lower × Sized 9 35000 upper }
        ensures { TotalsWith lower upper self result }
    {
        Sums {
            lower: self.lower.total(lower, Direction::Down),
            upper: self.upper.total(upper, Direction::Up),
        }
    }
}

// The states that have rows are the first `count` of `states`. A mark is kept as long as nothing was lost that the report's figure rests on.
// kept: (a) an array and a count, since the library allocates nothing.
// kept: (d) two marks and no struct of both: each goes with its own figure, and a cut path asks for the upper's alone.
#[derive(Clone, Copy)]
pub struct RowTable {
    pub count: usize,
    pub states: [u16; 1000],
    pub deaths: Sums,
    pub cuts: Figure,
    pub lower_kept: bool,
    pub upper_kept: bool,
    pub by_state: [Sums; 1001],
}

impl RowTable {
    // A table without rows, its totals those of no path.
    pub fn empty() -> RowTable
        ensures { Empty result }
    {
        RowTable {
            count: 0,
            states: [0; 1000],
            deaths: Sums::NONE,
            cuts: Figure::zero(),
            lower_kept: true,
            upper_kept: true,
            by_state: [Sums::NONE; 1001],
        }
    }

    // One more row, behind the others.
    pub(crate) fn add_row(&mut self, state: usize)
        requires { (self.old.count < 1000) × (state ≤ 1000) }
        ensures { RowAdded state self.old self.new }
    {
        self.states[self.count] = state as u16;
        self.count += 1;
    }

    // One more death path that ends in the state s: in the report's totals and in those of its row.
    // kept: (d) `TableGathered` and the range of a path's figures, here, below and in `bounds`: with a ghost count of the paths in the table each clause would
    // have to bound that count instead, and of a path's figures no type says from how many steps they come.
    pub fn note_death(&mut self, s: usize, lower: Figure, upper: Figure)
        requires { (s ≤ 1000) × TableGathered 999999 self.old × Sized 9 35000 lower × Sized 9 35000 upper }
        ensures { DeathNoted s lower upper self.old self.new }
    {
        self.deaths = self.deaths.with(lower, upper);
        self.by_state[s] = self.by_state[s].with(lower, upper);
    }

    // One more cut path.
    pub fn note_cut(&mut self, upper: Figure)
        requires { TableGathered 999999 self.old × Sized 9 35000 upper }
        ensures { CutNoted upper self.old self.new }
    {
        self.cuts = self.cuts.total(upper, Direction::Up);
    }

    // Notes in the report's marks whether something more, that its lower or that its upper rests on, lost nothing.
    // kept: (d) two marks, as the table has them: the two lines below write one each.
    #[tactic(auto, unfolding(crate::specs::Internal::Table::totals_in))]
    pub fn note_marks(&mut self, lower: bool, upper: bool)
        ensures { MarksNoted (record { lower = lower; upper = upper }) self.old self.new }
    {
        self.lower_kept &= lower;
        self.upper_kept &= upper;
    }

    // Whether one of the two can still be kept.
    pub fn is_open(&self) -> bool
        ensures { result ≡ (self.now.lower_kept || self.now.upper_kept) }
    {
        self.lower_kept || self.upper_kept
    }

    // The row of a state, with its totals to nine digits as the report's are, there being no cut path.
    pub fn row(&self, state: u16) -> Row
        requires { RowFits self.now state }
        ensures { result ≡ row_of self.now state }
    {
        let sums = self.by_state[usize::from(state)];
        Row {
            state: u64::from(state),
            lower: sums.lower.to_nine(Direction::Down),
            upper: sums.upper.sum_to_nine(Figure::zero(), Direction::Up),
        }
    }
}
