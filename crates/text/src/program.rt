// The report program but for its reading and writing: a buffer for the bytes of standard input, and the text to write.
ghost use Rattle.std.specs.Prelude.{◌≡◌, length};
ghost use Rattle.tree.specs.Rows.{answer_with_rows};
ghost use Rattle.text.specs.Bytes.{words_of, most_bytes};
ghost use Rattle.text.specs.Written.{Holds};
ghost use Rattle.text.specs.Program.{report_budget, report_rows, printed, LendsRows};
ghost use Rattle.text.specs.Rules.{Rules};
ghost use Rattle.text.specs.Faithful.{FaithfulText};

use crate::Text;
use crate::answers::answer_text;
use crate::bytes::{BYTES_SIZE, WORDS_SIZE, words_of};
use bounds::{Report, unreliability_by_state};
use figure::Figure;
use tree::Row;
use word::Refusal;

// A buffer for standard input; what it holds is free. A read that fills it can stop: `AnswerEnough` of `FaithfulText`.
pub fn input() -> [u8; BYTES_SIZE]
    ensures { most_bytes ≡ length result }
{
    [0; BYTES_SIZE]
}

// As many rows as a model can need.
fn no_rows() -> [Row; 1000] {
    let row = Row {
        state: 0,
        lower: Figure::zero(),
        upper: Figure::zero(),
    };
    [row; 1000]
}

// The answer to these words for a caller who lends 1,000 rows and looks at none of them afterwards.
fn lending_rows(words: &[u32], budget: u64) -> Result<Report, Refusal>
    ensures { LendsRows words.now words.now budget result }
{
    let mut rows = no_rows();
    unreliability_by_state(words, budget, &mut rows)
}

// The text that the report program prints for these bytes. The lent bytes are unchanged.
// `bytes_value` reads as nothing, and stays for the reader who looks for it.
pub fn report(bytes: &[u8]) -> Text
    ensures holds { Holds (printed bytes.now) result }
    ensures rules { Rules (words_of bytes.now) report_budget (answer_with_rows (words_of bytes.now) report_budget report_rows) }
    ensures faithful_text { FaithfulText }
    ensures bytes_value { bytes.now ≡ bytes.now }
{
    // kept: (d) these lines stand in `answers.rt` too; a function that takes a closure over the words is no shorter
    let mut words = [0; WORDS_SIZE];
    let n = words_of(bytes, &mut words);
    answer_text(lending_rows(&words[..n], 1_000_000))
}
