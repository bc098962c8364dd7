// One word of the table: its fields, what can be wrong with it, and the documents' refusals.
#![tactic(auto)]

pub mod faults;
pub mod fields;
pub mod kinds;
mod reasons;

// A quantity of the table: coefficient / 10^scale.
#[derive(Clone, Copy, PartialEq, Eq)]
pub struct Quantity {
    pub coefficient: u32,
    pub scale: u32,
}

// Why a model is turned away, with the word's place, the state or the number of rows needed where the documents give one.
#[derive(Clone, Copy, PartialEq, Eq)]
pub enum Refusal {
    TooManyWords,
    BudgetOutOfRange,
    WrongKind(usize),
    BitSet(usize),
    QuantityOutOfRange(usize),
    FieldOutOfRange(usize),
    SelfTransition(usize),
    DuplicateTransition(usize),
    TooManyTransitions(usize),
    ProbabilitiesNotOne(usize),
    StartWithoutExits(usize),
    StateNotGreater(usize),
    NamedStateWithExits(usize),
    TooFewRows(usize),
    OverBudget,
}
