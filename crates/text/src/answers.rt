// The text of a report, of a refusal, and of the answer to some bytes.
ghost use Rattle.std.specs.Prelude.{◌≡◌};
ghost use Rattle.text.specs.Text.{answer_text, text_of};
ghost use Rattle.text.specs.Bytes.{words_of};
ghost use Rattle.text.specs.Written.{Holds};
ghost use Rattle.word.specs.Answer.{refused, granted};
ghost use Rattle.word.specs.Refusal.{number, place};
ghost use Rattle.bounds.specs.Answers.{report_of, answer_of, marks_of, marks_of_answer};
ghost use Rattle.tree.specs.Report.{answer};
ghost use Rattle.tree.specs.Marks.{no_marks};
ghost use Rattle.text.specs.Rules.{Rules};

use crate::Text;
use crate::bytes::{WORDS_SIZE, words_of};
use bounds::{Report, unreliability};
use word::Refusal;

fn report_text(r: Report) -> Text
    ensures { Holds (answer_text (granted (report_of r)) (marks_of r)) result }
{
    Text::empty()
        .with_figures(r.lower, r.upper, r.cut)
        .with_counts(r.deaths, r.cuts, r.steps)
        .with_exact(r.lower_exact, r.upper_exact)
}

fn refusal_text(f: Refusal) -> Text
    ensures { Holds (answer_text (refused (number f) (place f)) no_marks) result }
{
    Text::empty().with_line(b"refused ", f)
}

pub fn answer_text(a: Result<Report, Refusal>) -> Text
    ensures { Holds (answer_text (answer_of a) (marks_of_answer a)) result }
{
    match a {
        Ok(r) => report_text(r),
        Err(f) => refusal_text(f),
    }
}

// The text of the answer to these words. The lent words are unchanged.
// `words_value` reads as nothing, and stays for the reader who looks for it.
pub fn words_text(words: &[u32], budget: u64) -> Text
    ensures holds { Holds (text_of words.now budget (answer words.now budget)) result }
    ensures rules { Rules words.now budget (answer words.now budget) }
    ensures words_value { words.now ≡ words.now }
{
    answer_text(unreliability(words, budget))
}

// The text of the answer to the words of these bytes, however many. The lent bytes are unchanged.
pub fn answered(bytes: &[u8], budget: u64) -> Text
    ensures holds { Holds (text_of (words_of bytes.now) budget (answer (words_of bytes.now) budget)) result }
    ensures rules { Rules (words_of bytes.now) budget (answer (words_of bytes.now) budget) }
    ensures bytes_value { bytes.now ≡ bytes.now }
{
    // kept: (d) these lines stand in `program.rt` too; a function that takes a closure over the words is no shorter
    let mut words = [0; WORDS_SIZE];
    let n = words_of(bytes, &mut words);
    words_text(&words[..n], budget)
}
