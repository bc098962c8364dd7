// The number and the place that the documents give a refusal.
ghost use Rattle.std.specs.Prelude.{◌≡◌};
ghost use Rattle.word.specs.Refusal as refusals;

use crate::Refusal;

impl Refusal {
    pub fn number(self) -> u64
        ensures { result ≡ refusals.number self }
    {
        match self {
            Refusal::TooManyWords => 1,
            Refusal::BudgetOutOfRange => 2,
            Refusal::WrongKind(_) => 3,
            Refusal::BitSet(_) => 4,
            Refusal::QuantityOutOfRange(_) => 5,
            Refusal::FieldOutOfRange(_) => 6,
            Refusal::SelfTransition(_) => 7,
            Refusal::DuplicateTransition(_) => 8,
            Refusal::TooManyTransitions(_) => 9,
            Refusal::ProbabilitiesNotOne(_) => 10,
            Refusal::StartWithoutExits(_) => 11,
            Refusal::OverBudget => 13,
            Refusal::TooFewRows(_) => 14,
            Refusal::StateNotGreater(_) => 15,
            Refusal::NamedStateWithExits(_) => 16,
        }
    }

    pub fn place(self) -> usize
        ensures { result ≡ refusals.place self }
    {
        match self {
            Refusal::TooManyWords | Refusal::BudgetOutOfRange | Refusal::OverBudget => 0,
            Refusal::WrongKind(place)
            | Refusal::BitSet(place)
            | Refusal::QuantityOutOfRange(place)
            | Refusal::FieldOutOfRange(place)
            | Refusal::SelfTransition(place)
            | Refusal::DuplicateTransition(place)
            | Refusal::TooManyTransitions(place)
            | Refusal::ProbabilitiesNotOne(place)
            | Refusal::StartWithoutExits(place)
            | Refusal::TooFewRows(place)
            | Refusal::StateNotGreater(place)
            | Refusal::NamedStateWithExits(place) => place,
        }
    }
}
