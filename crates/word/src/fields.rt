// The fields of a word, and what is read from the part of the words that begins at its own word.
ghost use Rattle.std.specs.Prelude.{◌-◌, ◌<◌, ◌≤◌, ◌≡◌, get_or, eqb};
ghost use Rattle.word.specs.Words as fields;

use crate::Quantity;
use crate::kinds::Kind;

// Bits hi down to lo, at most 31 of them.
fn bits(w: u32, hi: u32, lo: u32) -> u32
    requires { (lo ≤ hi) × (hi < 32) × (hi - lo < 31) }
    ensures { result ≡ fields.bits hi lo w }
{
    (w >> lo) % (1 << (hi - lo + 1))
}

// Bits 23 to 12: a number of states, or a state.
fn upper(w: u32) -> usize
    ensures value { result ≡ fields.bits 23 12 w }
    ensures upper_bound { result < 4096 }
{
    bits(w, 23, 12) as usize
}

// Bits 11 to 0: a state.
fn lower(w: u32) -> usize
    ensures value { result ≡ fields.bits 11 0 w }
    ensures upper_bound { result < 4096 }
{
    bits(w, 11, 0) as usize
}

// The number of its kind, which `Kind::of` names.
pub fn kind(w: u32) -> u32
    ensures { result ≡ fields.kind w }
{
    bits(w, 31, 28)
}

// ---- the head

// kept: (d) here and below, each field is one call of `bits`; a struct round a word would have to be put round each u32 that the caller's slice holds.
pub fn edition(w: u32) -> u32
    ensures { result ≡ fields.edition_field w }
{
    bits(w, 27, 24)
}

// The number of states N.
pub fn states(w: u32) -> usize
    ensures value { result ≡ fields.states_field w }
    ensures upper_bound { result < 4096 }
{
    upper(w)
}

pub fn start(w: u32) -> usize
    ensures value { result ≡ fields.start_field w }
    ensures upper_bound { result < 4096 }
{
    lower(w)
}

// ---- the caps

// L
pub fn step_limit(w: u32) -> u32
    ensures { result ≡ fields.step_limit_field w }
{
    bits(w, 27, 20)
}

// V
pub fn entry_limit(w: u32) -> u32
    ensures { result ≡ fields.entry_limit_field w }
{
    bits(w, 19, 12)
}

// These must be zero.
pub fn caps_rest(w: u32) -> u32
    ensures { result ≡ fields.caps_rest w }
{
    bits(w, 11, 0)
}

// ---- a generator's state

pub fn named_state(w: u32) -> usize
    ensures value { result ≡ fields.named_field w }
    ensures upper_bound { result < 4096 }
{
    lower(w)
}

// These must be zero.
pub fn named_rest(w: u32) -> u32
    ensures { result ≡ fields.named_rest w }
{
    bits(w, 27, 12)
}

// ---- a transition

// These must be zero.
pub fn transition_rest(w: u32) -> u32
    ensures { result ≡ fields.transition_rest w }
{
    bits(w, 27, 24)
}

// The state that it leaves.
pub fn from(w: u32) -> usize
    ensures value { result ≡ fields.from_field w }
    ensures upper_bound { result < 4096 }
{
    upper(w)
}

// The state that it reaches.
pub fn to(w: u32) -> usize
    ensures value { result ≡ fields.to_field w }
    ensures upper_bound { result < 4096 }
{
    lower(w)
}

// Whether a transition's word is a fast one's.
pub fn is_fast(w: u32) -> bool
    ensures { result ≡ eqb (fields.kind w) 7 }
{
    Kind::FastTransition.is_of(w)
}

// ---- the end

// These must be zero.
pub fn end_rest(w: u32) -> u32
    ensures { result ≡ fields.end_rest w }
{
    bits(w, 27, 0)
}

// ---- a quantity

pub fn scale(w: u32) -> u32
    ensures { result ≡ fields.scale_field w }
{
    bits(w, 27, 20)
}

pub fn coefficient(w: u32) -> u32
    ensures { result ≡ fields.coefficient_field w }
{
    bits(w, 19, 0)
}

// ---- what a part of the words begins with

// The part's first word; zero of no word.
pub fn word_at(part: &[u32]) -> u32
    ensures { result ≡ get_or part.now 0 0 }
{
    part.first().copied().unwrap_or(0)
}

// The quantity at the part's first word; zero of no word.
pub fn quantity_at(part: &[u32]) -> Quantity
    ensures { result ≡ fields.quantity (get_or part.now 0 0) }
{
    let w = word_at(part);
    Quantity {
        coefficient: coefficient(w),
        scale: scale(w),
    }
}
