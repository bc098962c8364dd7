// The library for C and for what calls C: numbers and slices of numbers in, numbers out. `include/bounds.h` declares these functions.
#![tactic(auto)]

ghost use Rattle.std.specs.Prelude.{◌≡◌, [], ◌∷◌, take};
ghost use Rattle.word.specs.Answer.{granted};
ghost use Rattle.tree.specs.Report as definition;
ghost use Rattle.bounds.specs.Answers.{report_of, marks_of};
ghost use Rattle.text.specs.Bytes.{most_bytes, Spelled};
ghost use Rattle.embed.specs.Exports.{AnswerPut, Assessed, AssessedRows, Texted, Compared, numbers_of, powers_of, version};
ghost use Rattle.embed.specs.Subsystems.{OrAnswered};
ghost use Rattle.figure.specs.Rounding.{figure};

use bounds::{Report, unreliability, unreliability_by_state};
use figure::Figure;
use orprob::{OrRefusal, probabilistic_or};
use text::answers::words_text;
use text::bytes::{WORDS_SIZE, words_of};
use tree::Row;
use word::Refusal;

mod subsystems;

// The numbers of a report.
// kept: (a) two lent arrays, as C hands them over.
fn put_report(r: Report, values: &mut [u64; 9], powers: &mut [i32; 3])
    ensures values_after { values.new ≡ numbers_of (definition.values (granted (report_of r))) (marks_of r) }
    ensures powers_after { powers.new ≡ powers_of (definition.values (granted (report_of r))) }
{
    let lower = r.lower;
    let upper = r.upper;
    let cut = r.cut;
    *values = [
        0,
        lower.digits,
        upper.digits,
        cut.digits,
        r.deaths,
        r.cuts,
        r.steps,
        u64::from(r.lower_exact),
        u64::from(r.upper_exact),
    ];
    *powers = [lower.power, upper.power, cut.power];
}

// The number of an answer, 0 for a report, and its numbers.
// kept: (a) numbers, as all that C is answered.
fn put_answer(a: Result<Report, Refusal>, values: &mut [u64; 9], powers: &mut [i32; 3]) -> u64
    ensures { AnswerPut a result values.new powers.new }
{
    match a {
        Ok(r) => {
            put_report(r, values, powers);
            0
        }
        Err(f) => {
            *values = [f.place() as u64, 0, 0, 0, 0, 0, 0, 0, 0];
            *powers = [0, 0, 0];
            f.number()
        }
    }
}

// The answer to the words and the budget: 0 for a report, or the refusal's number. Fills `values` with a refusal's place, the digits of the lower,
// the upper and the cut figure, the counts of deaths, cuts and steps and the marks of the lower and the upper (1 if no operation that the figure rests
// on lost anything, so that it equals its exact sum), and `powers` with the figures' powers of ten; all but the place are zero in a refusal.
#[unsafe(no_mangle)]
pub extern "C" fn bounds_assess(
    words: &[u32],
    budget: u64,
    values: &mut [u64; 9],
    powers: &mut [i32; 3],
) -> u64
    ensures { Assessed words.now words.now budget result values.new powers.new }
{
    put_answer(unreliability(words, budget), values, powers)
}

// The same, and the caller's first rows filled: in order of state number, one for each state without exits that is the target of a transition and none
// of the generator's. Rows beyond them are unchanged, and so are all on a refusal but 13, on which those filled hold zeros beside their state numbers.
#[unsafe(no_mangle)]
pub extern "C" fn bounds_assess_rows(
    words: &[u32],
    budget: u64,
    rows: &mut [Row],
    values: &mut [u64; 9],
    powers: &mut [i32; 3],
) -> u64
    ensures { AssessedRows words.now words.now budget rows.old rows.new result values.new powers.new }
{
    let a = unreliability_by_state(words, budget, rows);
    put_answer(a, values, powers)
}

// The answer to the words and the budget as the report program prints it: the first bytes of `text`, as many as the number that is handed back.
#[unsafe(no_mangle)]
pub extern "C" fn bounds_text(words: &[u32], budget: u64, text: &mut [u8; 256]) -> usize
    ensures { Texted words.now words.now budget text.new result }
{
    let answer = words_text(words, budget);
    let bytes = answer.as_slice();
    *text = [0; 256];
    text[..bytes.len()].copy_from_slice(bytes);
    bytes.len()
}

// The words of some bytes, at the start of `words`, and how many there are: of more bytes than `words` has room for those of the first, which are
// already more words than a model may have. The lent bytes are unchanged; what `words` holds behind its words is free.
// `bytes_value` reads as nothing, and stays for the reader who looks for it.
#[unsafe(no_mangle)]
pub extern "C" fn bounds_words(bytes: &[u8], words: &mut [u32; WORDS_SIZE]) -> usize
    ensures spelled { Spelled (take most_bytes bytes.now) words.new result }
    ensures bytes_value { bytes.now ≡ bytes.now }
{
    words_of(bytes, words)
}

// What `bounds_at_or_below` answers where one of the two is no figure.
// kept: (a) a number, as all that C is answered.
const NO_FIGURE: u64 = 2;

// How a figure, given by its digits and its power of ten, compares with a limit: 1 if it is at or below the limit, 0 if it is above, 2 if one of
// the two is no figure. It takes any numbers.
#[unsafe(no_mangle)]
pub extern "C" fn bounds_at_or_below(
    digits: u64,
    power: i32,
    limit_digits: u64,
    limit_power: i32,
) -> u64
    ensures { Compared (figure digits power) (figure limit_digits limit_power) result }
{
    let a = Figure { digits, power };
    let limit = Figure {
        digits: limit_digits,
        power: limit_power,
    };
    if !a.is_figure() || !limit.is_figure() {
        return NO_FIGURE;
    }
    u64::from(a.at_or_below(limit))
}

// The probabilistic OR of `pairs` pairs of figures: 0, or the refusal's number, 17 or 18. `digits` and `powers` are those of lower 0, upper 0, lower 1,
// upper 1 and so on; what stands there behind the pairs is of no account. Fills `or_values` with a refusal's place and the digits of the lower and the
// upper figure, and `or_powers` with the figures' powers of ten; all but the place are zero in a refusal. It takes any numbers.
#[unsafe(no_mangle)]
pub extern "C" fn bounds_or(
    digits: &[u64; 32],
    powers: &[i32; 32],
    pairs: usize,
    or_values: &mut [u64; 3],
    or_powers: &mut [i32; 2],
) -> u64
    ensures or_answered { OrAnswered digits.now powers.now pairs result or_values.new or_powers.new }
    ensures digits_value { (digits.now ≡ digits.now) × (powers.now ≡ powers.now) }
{
    let room = subsystems::pairs_given(digits, powers);
    let combined = match room.get(..pairs) {
        Some(given) => probabilistic_or(given),
        None => Err(OrRefusal::PairCountOutOfRange),
    };
    subsystems::put_combined(combined, or_values, or_powers)
}

// The version of the library: major × 1,000,000 + minor × 1,000 + patch.
#[unsafe(no_mangle)]
pub extern "C" fn bounds_version() -> u64
    ensures { result ≡ version }
{
    1_005_001
}
