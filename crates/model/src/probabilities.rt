// The sums of the probabilities of each state's fast exits, in whole numbers of 10^-12.
ghost use Rattle.std.specs.Prelude.{ℕ, ◌-◌, ◌*◌, ◌^◌, ◌≤◌, ◌≡◌, get_or};
ghost use Rattle.word.specs.Words.{scale_field, coefficient_field};
ghost use Rattle.model.specs.Internal.Parts.{slot_transitions, uneven_by, IsFastSum, IsLowestOf};

use crate::indexed_words::IndexedWords;
use word::fields::{is_fast, quantity_at, word_at};

// The probability at the part's first word, as a whole number of 10^-12.
#[tactic(auto, using(crate::proofs::Units::units_high))]
fn units(part: &[u32]) -> u64
    ensures value { result ≡ coefficient_field (get_or part.now 0 0) * 10 ^ (12 - scale_field (get_or part.now 0 0)) }
    ensures upper_bound { result ≤ 1048575000000000000 }
{
    let q = quantity_at(part);
    u64::from(q.coefficient) * 10u64.pow(12u32.saturating_sub(q.scale))
}

impl IndexedWords<'_> {
    // The sum of the probabilities of the fast exits of the state s.
    fn fast_sum(self, s: usize) -> Option<u64>
        requires { s ≤ 1000 }
        ensures { IsFastSum (slot_transitions self.entry.words.now self.entry.index.now s) result }
    {
        let mut sum = None;
        for &j in self.index.exits(s) {
            let at = self.index.place_of(usize::from(j));
            if is_fast(word_at(&self.words[at..])) {
                let third = at + 3;
                sum = Some(sum.unwrap_or(0) + units(&self.words[third..]));
            }
        }
        sum
    }

    // Has the state s fast exits whose probabilities do not sum to 1?
    fn uneven(self, s: usize) -> bool
        requires { s ≤ 1000 }
        ensures { result ≡ uneven_by self.entry.words.now self.entry.index.now s }
    {
        self.fast_sum(s).is_some_and(|sum| sum != 1_000_000_000_000)
    }

    // The lowest such state of 1 to `states`, by the exits that the index leads to.
    pub(crate) fn lowest_uneven(self, states: usize) -> Option<usize>
        requires { states ≤ 1000 }
        ensures { IsLowestOf (uneven_by self.entry.words.now self.entry.index.now) states result }
    {
        // kept: (c) `1..=states` was tried: what `find` answers over it stays open, and std says it in terms of numbers for a Range alone (`first_from_Range`)
        (1..states + 1).find(
            |&s|
                requires { s ≤ 1000 }
            { self.uneven(s) },
        )
    }
}
