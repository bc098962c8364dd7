// The word table of a model: its reading, with refusals 1 to 11, 15 and 16, and the index of its exits.
#![tactic(auto)]

mod conclusion;
pub mod exits;
pub mod index;
mod indexed_words;
mod named;
mod opening;
mod probabilities;
mod transitions;

ghost use Rattle.model.specs.Promise.{Promised};
ghost use Rattle.model.specs.Internal.Parts.{CalledAs};

use crate::conclusion::concluded;
use crate::index::Index;
use crate::named::name_states;
use crate::opening::open;
use crate::transitions::list;
use word::faults::ensure;
use word::{Quantity, Refusal};

// A model has at most so many words.
pub const MOST_WORDS: usize = 16_105;

// What an accepted model's first four words say: the number of states, the start, the step limit, the entry limit, the mission time and the
// prune level. Its transitions and the generator's states stand in the index.
#[derive(Clone, Copy)]
pub struct Accepted {
    pub states: usize,
    pub start: usize,
    pub step_limit: usize,
    pub entry_limit: u8,
    pub time: Quantity,
    pub prune: Quantity,
}

// The caller's two tests, 1 and 2.
fn called(words: &[u32], budget: u64) -> Result<(), Refusal>
    ensures { CalledAs words.now budget result }
{
    ensure(words.len() <= MOST_WORDS, Refusal::TooManyWords)?;
    ensure((1..=1_000_000).contains(&budget), Refusal::BudgetOutOfRange)
}

// Reads a model's words to their end or to the first fault, tests 1 to 11, 15 and 16, and fills the lent index of its exits, whatever
// it held. On a refusal what the index then holds is free.
pub fn read(words: &[u32], budget: u64, index: &mut Index) -> Result<Accepted, Refusal>
    ensures { Promised words.now words.now budget index.new result }
{
    called(words, budget)?;
    let a = open(words)?;
    let first = name_states(words, a, index)?;
    list(words, a, first, index)?;
    concluded(words, a, index)
}
