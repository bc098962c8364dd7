// The table of what belongs to a state or to a transition alone: E, h, h' and H of each state from 0 to 1,000, and the share, the factor and the
// grains of each transition from 0 to 3,999, each packed with its mark.
ghost use Rattle.std.specs.Prelude.{◌≡◌};
ghost use Rattle.tables.specs.Internal.Tables.{no_entries};

use crate::pack::Packed;

// E, h rounded up, h rounded down (h') and H of a state.
#[derive(Clone, Copy, Default)]
pub struct StateEntry {
    pub rate: Packed,
    pub mean_up: Packed,
    pub mean_down: Packed,
    pub moment: Packed,
}

// The rate or the probability of a transition, its factor in a lower, and its grains.
#[derive(Clone, Copy, Default)]
pub struct StepEntry {
    pub share: Packed,
    pub factor: Packed,
    pub grains: Packed,
}

// One entry for each state and one for each transition.
#[derive(Clone, Copy)]
pub struct Table {
    pub states: [StateEntry; 1001],
    pub steps: [StepEntry; 4000],
}

impl Table {
    // A table to be filled.
    pub fn empty() -> Table
        ensures { result ≡ no_entries }
    {
        Table {
            states: [StateEntry::default(); 1001],
            steps: [StepEntry::default(); 4000],
        }
    }
}
