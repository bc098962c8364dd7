// An accepted model as the tables, the rows and the walk take it: its words with their index, and what the first of them say.
ghost use Rattle.std.specs.Prelude.{◌≡◌, ◌<◌, length};
ghost use Rattle.model.specs.Index.{transition, transition_at};
ghost use Rattle.model.specs.Promise.{summary};
ghost use Rattle.tables.specs.Internal.Described.{Indexes, StandsFirst, described, net_of};
ghost use Rattle.tables.specs.Internal.Facts.{indexes_prop};

use model::Accepted;
use model::index::Index;

// The words of an accepted model, the index of its exits that reading them has filled, and what reading has answered.
#[derive(Clone, Copy)]
pub struct Indexed<'a> {
    pub words: &'a [u32],
    pub index: &'a Index,
    pub accepted: Accepted,
    pub ghost indexes: { Indexes words.now index.now } by { indexes_prop words.now index.now },
    pub ghost accepted_is: { accepted ≡ summary (described words.now) },
}

impl<'a> Indexed<'a> {
    // The words from that of the transition j on.
    pub fn part(self, j: usize) -> &'a [u32]
        requires { j < length (net_of self.words.now).table }
        ensures stands_first { StandsFirst result.now }
        ensures reads { transition_at result.now ≡ transition (net_of self.entry.words.now) j }
    {
        let at = self.index.place_of(j);
        &self.words[at..]
    }
}
