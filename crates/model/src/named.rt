// The generator's states: the words that name them, and whether one has exits.
ghost use Rattle.std.specs.Prelude.{◌≤◌, ◌≡◌, length};
ghost use Rattle.model.specs.Reading.{most_words};
ghost use Rattle.model.specs.Internal.Parts.{IsOpened, NamedAs, IsLowestOf, leads_on_by};

use crate::Accepted;
use crate::index::Index;
use word::fields::named_state;
use word::kinds::Kind;
use word::{Refusal, faults};

// Reads the words that name states, from place 4 on, and begins the index, whatever it held, with these: the place behind them, where the transitions
// begin.
// kept: (d) `words` and `a` side by side in the three functions that `read` calls one after the other, and the bound of the words' length in two: `read` would
// make a struct of these for the three alone, and a `Progress` has besides where reading stands
pub(crate) fn name_states(words: &[u32], a: Accepted, index: &mut Index) -> Result<usize, Refusal>
    requires opened { IsOpened words.now a }
    requires words_len_bound { length words.now ≤ most_words }
    ensures { NamedAs a words.now index.new result }
{
    index.clear();
    let mut last: usize = 0;
    for (count, &w) in words[4..].iter().enumerate() {
        let at = 4 + count;
        if !Kind::NamedState.is_of(w) {
            return Ok(at);
        }
        faults::named(w, at, a.states, last, count)?;
        last = named_state(w);
        index.name(last);
    }
    Ok(words.len())
}

// Is the state s named, and has it exits?
fn leads_on(index: &Index, s: usize) -> bool
    requires { s ≤ 1000 }
    ensures { result ≡ leads_on_by index.now s }
{
    index.is_named(s) && index.exit_count(s) != 0
}

// The lowest such state of 1 to `states`.
pub(crate) fn lowest_leading_on(index: &Index, states: usize) -> Option<usize>
    requires { states ≤ 1000 }
    ensures { IsLowestOf (leads_on_by index.now) states result }
{
    // kept: (c) `1..=states` was tried: what `find` answers over it stays open, and std says it in terms of numbers for a Range alone (`first_from_Range`)
    (1..states + 1).find(
        |&s|
            requires { s ≤ 1000 }
        { leads_on(index, s) },
    )
}
