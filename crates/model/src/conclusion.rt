// The tests after the end: 10, 16 and 11.
ghost use Rattle.model.specs.Internal.Parts.{Ended, Concluded};

use crate::Accepted;
use crate::index::Index;
use crate::indexed_words::IndexedWords;
use crate::named::lowest_leading_on;
use word::Refusal;
use word::faults::ensure;

pub(crate) fn concluded(words: &[u32], a: Accepted, index: &Index) -> Result<Accepted, Refusal>
    requires { Ended a words.now index.now }
    ensures { Concluded words.now index.now result }
{
    let exits = IndexedWords { words, index };
    if let Some(s) = exits.lowest_uneven(a.states) {
        return Err(Refusal::ProbabilitiesNotOne(s));
    }
    if let Some(s) = lowest_leading_on(index, a.states) {
        return Err(Refusal::NamedStateWithExits(s));
    }
    let start = a.start;
    let goes_on = index.exit_count(start) != 0;
    ensure(goes_on, Refusal::StartWithoutExits(start))?;
    Ok(a)
}
