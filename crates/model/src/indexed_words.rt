// The words of a model and the index of their exits, as far as they have been read.
ghost use Rattle.std.specs.Prelude.{ℕ, ◌≤◌, ◌<◌, ◌≡◌, length, eqb};
ghost use Rattle.std.proofs.Props.{props};
ghost use Rattle.word.specs.Model.{any};
ghost use Rattle.model.specs.Index.{place_of};
ghost use Rattle.model.specs.Internal.Parts.{Leads, slot_words};

use crate::index::Index;

// Words, and an index that leads from each state to words of transitions.
#[derive(Clone, Copy)]
pub(crate) struct IndexedWords<'a> {
    pub words: &'a [u32],
    pub index: &'a Index,
    pub ghost leads: { (s : ℕ) → s ≤ 1000 → Leads words.now index.now s } by { Prim.hlevel props },
}

impl IndexedWords<'_> {
    // Is w among the words of the exits of the state s?
    pub(crate) fn stood(self, s: usize, w: u32) -> bool
        requires { s ≤ 1000 }
        ensures { result ≡ any (eqb w) (slot_words self.entry.words.now self.entry.index.now s) }
    {
        self.index.exits(s).iter().any(
            |&j|
                requires { (j < 4000) × (place_of self.index.now j < length self.words.now) }
            { w == self.index.word_of(self.words, usize::from(j)) },
        )
    }
}
