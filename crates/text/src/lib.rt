// The report program's two conversions, bytes into words and an answer into text, and all that it does between reading and writing.
#![tactic(auto)]

ghost use Rattle.std.specs.Prelude.{ℕ, ◌≡◌, ◌≤◌, List, length, take};

use std::marker::Model;

pub mod answers;
pub mod bytes;
pub mod program;
mod writing;

// Text in ASCII, at most as long as the longest answer. A clause sees the bytes that it has so far.
// kept: (a) an array and a length, since the library allocates nothing.
#[derive(Drop)]
pub struct Text {
    bytes: [u8; 256],
    len: usize,
}

impl Model for Text {
    ghost Value = { List ℕ };

    ghost view = { λ t. take t.len t.bytes };

    ghost invariant = { λ t. t.len ≤ 256 };
}

impl Text {
    // The bytes of the text, and no others.
    pub fn as_slice(&self) -> &[u8]
        ensures value { result.now ≡ self.now }
        ensures within { length result.now ≤ 256 }
    {
        &self.bytes[..self.len]
    }
}
