// Tests of one word, each handed its place and the part of the words that begins at it, or, where its kind is known, the word itself. A part that passes
// has a word.
#![tactic(auto, unfolding(crate::specs::Internal::Tests::first_fault, crate::specs::Internal::Tests::word_answer))]

ghost use Rattle.std.specs.Prelude.{◌<◌, ◌≡◌, true, false, length, MatchResult, OnOk};
ghost use Rattle.word.specs.Faults as faults;
ghost use Rattle.word.specs.Kinds.{kind_number};
ghost use Rattle.word.specs.Internal.Tests.{answer, first_fault, word_answer, field_faults, FirstOfKind};

use crate::Refusal;
use crate::fields::{
    caps_rest, coefficient, edition, end_rest, entry_limit, from, named_rest, named_state, scale,
    start, states, step_limit, to, transition_rest,
};
use crate::kinds::Kind;

// What must hold, or else why the model is turned away.
pub fn ensure(holds: bool, or_else: Refusal) -> Result<(), Refusal>
    ensures { MatchResult result (λ _. holds ≡ true) (λ f. (holds ≡ false) × (f ≡ or_else)) }
{
    if holds { Ok(()) } else { Err(or_else) }
}

// The part's first word, which must be of this kind.
// kept: (d) the place only goes into the refusal; a struct of the part and its place would carry one fact for four tests.
fn first(part: &[u32], place: usize, kind: Kind) -> Result<u32, Refusal>
    ensures { FirstOfKind kind place part.now result }
{
    match part.first() {
        Some(&w) if kind.is_of(w) => Ok(w),
        _ => Err(Refusal::WrongKind(place)),
    }
}

pub fn head(part: &[u32], place: usize) -> Result<(), Refusal>
    ensures fault { answer result ≡ word_answer faults.head_faults place part.now }
    ensures inside { OnOk result (0 < length part.now) }
{
    let w = first(part, place, Kind::Head)?;
    ensure(edition(w) == 1, Refusal::FieldOutOfRange(place))?;
    let n = states(w);
    ensure((1..=1000).contains(&n), Refusal::FieldOutOfRange(place))?;
    ensure((1..=n).contains(&start(w)), Refusal::FieldOutOfRange(place))
}

// A quantity of this kind: its scale is at most `most`, its coefficient from `least` to 999,999.
// kept: (d) the six pairs of `most` and `least` stand at their calls, as the documents have them.
pub fn quantity(
    part: &[u32],
    place: usize,
    kind: Kind,
    most: u32,
    least: usize,
) -> Result<(), Refusal>
    ensures fault { answer result ≡ word_answer (faults.quantity_faults (kind_number kind) most least) place part.now }
    ensures inside { OnOk result (0 < length part.now) }
{
    let w = first(part, place, kind)?;
    let c = coefficient(w) as usize;
    let fits = scale(w) <= most && (least..=999_999).contains(&c);
    ensure(fits, Refusal::QuantityOutOfRange(place))
}

pub fn caps(part: &[u32], place: usize) -> Result<(), Refusal>
    ensures fault { answer result ≡ word_answer faults.caps_faults place part.now }
    ensures inside { OnOk result (0 < length part.now) }
{
    let w = first(part, place, Kind::Caps)?;
    ensure(caps_rest(w) == 0, Refusal::BitSet(place))?;
    let l = step_limit(w);
    ensure((1..=24).contains(&l), Refusal::FieldOutOfRange(place))?;
    let v = entry_limit(w);
    ensure((1..=24).contains(&v), Refusal::FieldOutOfRange(place))
}

// The tests of a word w that names a generator's state, whose kind is known and which stands at `place`: `last` is the state named before, 0 if there is
// none, and `count` says how many were named.
// kept: (d) no state is 0, and the definition named_faults counts from 0 too, so 0 stands for none without a test.
pub fn named(w: u32, place: usize, states: usize, last: usize, count: usize) -> Result<(), Refusal>
    ensures { answer result ≡ first_fault (faults.named_faults states last count w) place }
{
    let s = named_state(w);
    ensure(named_rest(w) == 0, Refusal::BitSet(place))?;
    ensure((1..=states).contains(&s), Refusal::FieldOutOfRange(place))?;
    ensure(last < s, Refusal::StateNotGreater(place))?;
    ensure(count < 100, Refusal::TooManyTransitions(place))
}

// Tests 4, 6 and 7 of a transition's word w, whose kind is known and which stands at `place`.
pub fn transition(w: u32, place: usize, states: usize) -> Result<(), Refusal>
    ensures { answer result ≡ first_fault (field_faults states w) place }
{
    let a = from(w);
    let b = to(w);
    ensure(transition_rest(w) == 0, Refusal::BitSet(place))?;
    let known = (1..=states).contains(&a) && (1..=states).contains(&b);
    ensure(known, Refusal::FieldOutOfRange(place))?;
    ensure(a != b, Refusal::SelfTransition(place))
}

// The end's word, whose kind is known: no other bit is set.
pub fn end(part: &[u32], place: usize) -> Result<(), Refusal>
    ensures fault { answer result ≡ word_answer faults.end_faults place part.now }
    ensures inside { OnOk result (0 < length part.now) }
{
    let Some(&w) = part.first() else {
        return Err(Refusal::WrongKind(place));
    };
    ensure(end_rest(w) == 0, Refusal::BitSet(place))
}
