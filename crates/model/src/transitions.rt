// Transitions in any order, up to the end, and the index of exits that they fill.
ghost use Rattle.std.specs.Prelude.{◌+◌, ◌≤◌, ◌<◌, ◌≡◌, true, false, length, get_or};
ghost use Rattle.word.specs.Words as fields;
ghost use Rattle.word.specs.Internal.Tests.{answer, first_fault};
ghost use Rattle.model.specs.Reading.{most_words};
ghost use Rattle.model.specs.Internal.Parts as parts;

use crate::Accepted;
use crate::index::Index;
use crate::indexed_words::IndexedWords;
use word::faults::ensure;
use word::fields::{from, is_fast};
use word::kinds::Kind;
use word::{Refusal, faults};

// How far reading has come, where a word is left: the words, what the first four of them say, its place and the number of transitions before it.
#[derive(Clone, Copy)]
struct Progress<'a> {
    words: &'a [u32],
    a: Accepted,
    at: usize,
    known: usize,
    ghost inside: { at < length words.now },
    ghost short: { length words.now ≤ most_words },
}

impl Progress<'_> {
    // Tests 8 and 9 of the word that stands here, by the exits so far.
    #[tactic(auto, unfolding(word::specs::Internal::Tests::first_fault))]
    fn room(&self, exits: IndexedWords) -> Result<(), Refusal>
        requires { fields.from_field (get_or self.now.words.now self.now.at 0) ≤ 1000 }
        ensures { answer result ≡ first_fault (parts.room_faults exits.entry.words.now exits.entry.index.now self.now.known (get_or self.now.words.now self.now.at 0)) self.now.at }
    {
        let w = self.words[self.at];
        let s = from(w);
        let new = !exits.stood(s, w);
        ensure(new, Refusal::DuplicateTransition(self.at))?;
        let few = exits.index.exit_count(s) < 16 && self.known < 4000;
        ensure(few, Refusal::TooManyTransitions(self.at))
    }

    // The word behind a slow transition's own: the rate.
    #[tactic(auto, using(word::proofs::Parts::part_from), unfolding(crate::specs::Internal::Parts::words_answer, word::specs::Answer::then))]
    fn rate(&self) -> Result<(), Refusal>
        ensures { answer result ≡ parts.words_answer (parts.body_faults false) (self.now.at + 1) self.now.words.now }
    {
        let first = self.at + 1;
        faults::quantity(&self.words[first..], first, Kind::Rate, 20, 1)
    }

    // The words behind a fast transition's own: the mean, the deviation and the probability.
    #[tactic(auto, using(word::proofs::Parts::part_from), unfolding(crate::specs::Internal::Parts::words_answer, word::specs::Answer::then))]
    fn spread(&self) -> Result<(), Refusal>
        ensures { answer result ≡ parts.words_answer (parts.body_faults true) (self.now.at + 1) self.now.words.now }
    {
        let first = self.at + 1;
        faults::quantity(&self.words[first..], first, Kind::Mean, 20, 1)?;
        let second = first + 1;
        faults::quantity(&self.words[second..], second, Kind::Deviation, 20, 0)?;
        let third = first + 2;
        faults::quantity(&self.words[third..], third, Kind::Probability, 12, 1)
    }

    // All tests of the transition whose word, of kind 5 or 7, stands here.
    fn tested(&self, index: &Index) -> Result<(), Refusal>
        requires { parts.AtTransition self.now.a self.now.words.now self.now.at self.now.known index.now }
        ensures { parts.Tested self.now.a self.now.words.now self.now.at self.now.known index.now result }
    {
        let w = self.words[self.at];
        faults::transition(w, self.at, self.a.states)?;
        let exits = IndexedWords {
            words: self.words,
            index,
        };
        self.room(exits)?;
        if is_fast(w) {
            self.spread()
        } else {
            self.rate()
        }
    }

    // One transition more: the place behind it.
    fn transition(&self, index: &mut Index) -> Result<Option<usize>, Refusal>
        requires { parts.AtTransition self.now.a self.now.words.now self.now.at self.now.known index.old }
        ensures { parts.Stepped self.now.a self.now.words.now self.now.at self.now.known index.new result }
    {
        self.tested(index)?;
        let w = self.words[self.at];
        index.enter(from(w), self.known, self.at);
        Ok(Some(self.at + if is_fast(w) { 4 } else { 2 }))
    }

    // The end, whose word stands here: no word follows it.
    fn end(&self) -> Result<(), Refusal>
        ensures { parts.EndsAs self.now.words.now self.now.at result }
    {
        faults::end(&self.words[self.at..], self.at)?;
        let behind = self.at + 1;
        ensure(self.words.len() <= behind, Refusal::WrongKind(behind))
    }

    // One turn, where a transition or the end is called for: the place behind the transition, none at the end.
    fn next(&self, index: &mut Index) -> Result<Option<usize>, Refusal>
        requires { parts.Begun self.now.a self.now.words.now self.now.at self.now.known index.old }
        ensures { parts.Stepped self.now.a self.now.words.now self.now.at self.now.known index.new result }
    {
        match Kind::of(self.words[self.at]) {
            Kind::SlowTransition | Kind::FastTransition => self.transition(index),
            Kind::End => {
                self.end()?;
                Ok(None)
            }
            _ => Err(Refusal::WrongKind(self.at)),
        }
    }
}

// All transitions, from the place `first` on, up to the end.
// kept: (d) `words` and `a` side by side in the three functions that `read` calls one after the other, and the bound of the words' length in two: `read` would
// make a struct of these for the three alone, and a `Progress` has besides where reading stands
pub(crate) fn list(
    words: &[u32],
    a: Accepted,
    first: usize,
    index: &mut Index,
) -> Result<(), Refusal>
    requires begun { parts.Begun a words.now first 0 index.old }
    requires words_len_bound { length words.now ≤ most_words }
    ensures { parts.Listed a words.now index.new result }
{
    let mut at = first;
    let mut known = 0;
    // kept: (d) the place of each transition follows from the word before, so no range or iterator gives it
    while at < words.len() {
        let here = Progress {
            words,
            a,
            at,
            known,
        };
        let Some(behind) = here.next(index)? else {
            return Ok(());
        };
        at = behind;
        known += 1;
    }
    Err(Refusal::WrongKind(at))
}
