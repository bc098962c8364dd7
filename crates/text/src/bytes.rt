// The words of some bytes: four bytes a word, least significant first; left-over bytes are one more word, of no kind.
ghost use Rattle.std.specs.Prelude.{◌≤◌, ◌≡◌, length, take};
ghost use Rattle.text.specs.Bytes.{most_bytes, Spelled};

use model::MOST_WORDS;

// How many words are looked at: one more than a model may have, so that too many are found to be too many.
pub const WORDS_SIZE: usize = MOST_WORDS + 1;

// And their bytes.
pub const BYTES_SIZE: usize = 4 * WORDS_SIZE;

fn fill(bytes: &[u8], words: &mut [u32; WORDS_SIZE]) -> usize
    requires { length bytes.now ≤ most_bytes }
    ensures { Spelled bytes.now words.new result }
{
    let (wholes, rest) = bytes.as_chunks::<4>();
    // kept: (c) by index: `words.iter_mut().zip(wholes)` was tried, and of words that an adapter of `iter_mut` lends nothing is known after the loop
    for (i, whole) in wholes.iter().enumerate() {
        words[i] = u32::from_le_bytes(*whole);
    }
    let n = wholes.len();
    if rest.is_empty() {
        return n;
    }
    words[n] = 0;
    n + 1
}

// Puts the words of the bytes at the start of `words`, and answers how many there are. Of more than `BYTES_SIZE` bytes it takes the first `BYTES_SIZE`:
// these are already more words than a model may have. The lent bytes are unchanged; what `words` holds behind its words is free.
// kept: (d) their number: what `words` holds as a whole is promised too, and a slice lent out of it would hide that from the clause.
// `bytes_value` reads as nothing, and stays for the reader who looks for it.
pub fn words_of(bytes: &[u8], words: &mut [u32; WORDS_SIZE]) -> usize
    ensures spelled { Spelled (take most_bytes bytes.now) words.new result }
    ensures bytes_value { bytes.now ≡ bytes.now }
{
    *words = [0; WORDS_SIZE];
    fill(&bytes[..BYTES_SIZE.min(bytes.len())], words)
}
