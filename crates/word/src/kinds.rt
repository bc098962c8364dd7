// The kind of a word, which bits 31 to 28 say.
ghost use Rattle.std.specs.Prelude.{ℕ, ◌≡◌};
ghost use Rattle.word.specs.declared.kinds.Kind.TheVariants.{Other};
ghost use Rattle.word.specs.Kinds as kinds;
ghost use Rattle.word.specs.Words as fields;

use crate::fields::kind;

// What a word is, as its kind says.
#[derive(Clone, Copy, PartialEq, Eq)]
pub enum Kind {
    Head,
    MissionTime,
    PruneLevel,
    Caps,
    SlowTransition,
    Rate,
    FastTransition,
    Mean,
    Deviation,
    Probability,
    NamedState,
    End,
    // A number that the documents give no word.
    Other(u32),
}

impl Kind {
    // The kind of the word w.
    // kept: (d) no `From<u32>`: it takes the whole word, of which the kind is four bits.
    pub fn of(w: u32) -> Kind
        ensures number { kinds.kind_number result ≡ fields.kind w }
        ensures other { (n : ℕ) → result ≡ Other n → kinds.IsUnnamed n }
    {
        match kind(w) {
            1 => Kind::Head,
            2 => Kind::MissionTime,
            3 => Kind::PruneLevel,
            4 => Kind::Caps,
            5 => Kind::SlowTransition,
            6 => Kind::Rate,
            7 => Kind::FastTransition,
            8 => Kind::Mean,
            9 => Kind::Deviation,
            10 => Kind::Probability,
            12 => Kind::NamedState,
            15 => Kind::End,
            number => Kind::Other(number),
        }
    }

    // The number that bits 31 to 28 of a word of this kind are.
    pub fn number(self) -> u32
        ensures { result ≡ kinds.kind_number self }
    {
        match self {
            Kind::Head => 1,
            Kind::MissionTime => 2,
            Kind::PruneLevel => 3,
            Kind::Caps => 4,
            Kind::SlowTransition => 5,
            Kind::Rate => 6,
            Kind::FastTransition => 7,
            Kind::Mean => 8,
            Kind::Deviation => 9,
            Kind::Probability => 10,
            Kind::NamedState => 12,
            Kind::End => 15,
            Kind::Other(number) => number,
        }
    }

    // Is the word w of this kind?
    pub fn is_of(self, w: u32) -> bool
        ensures { result ≡ kinds.is_of self w }
    {
        kind(w) == self.number()
    }
}
