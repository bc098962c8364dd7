// What a walk reads: a model's words, and what was worked out of them before.
ghost use Rattle.std.specs.Prelude.{◌≡◌};
ghost use Rattle.std.proofs.Props.{props};
ghost use Rattle.tree.specs.States.{mission_time};
ghost use Rattle.tables.specs.Internal.Described.{described, net_of};
ghost use Rattle.path.specs.Internal.Lent.{Filled, lent};
ghost use Rattle.path.specs.Internal.Paths.{Known};
ghost use Rattle.path.specs.Internal.Facts.{known_prop};
ghost use Rattle.tables.specs.Internal.Facts.{indexes_prop};

use figure::{Arithmetic, Figure};
use model::index::Index;
use tables::class::Class;
use tables::table::Table;
use word::fields::{from, is_fast};

// The words of a model, the index of their exits, the table of what belongs to a state or to a transition alone, and the mission time.
#[derive(Clone, Copy)]
pub struct Prepared<'a> {
    pub words: &'a [u32],
    pub index: &'a Index,
    pub table: &'a Table,
    pub time: Figure,
    pub ghost filled: { Filled (lent words.now index.now table.now) } by { Prim.hlevel (props, indexes_prop) },
    pub ghost time_is: { time ≡ mission_time (net_of words.now) },
}

// A path of the model, its steps being entries of the index.
#[derive(Clone, Copy)]
pub struct Walked<'a> {
    pub prepared: &'a Prepared<'a>,
    pub path: &'a [u16],
    pub ghost known: { Known (net_of prepared.now.words.now) path.now } by { Prim.hlevel (props, known_prop) },
}

// The class of a step, and the state that it leaves.
#[derive(Clone, Copy)]
pub(crate) struct Leaving {
    pub class: Class,
    pub state: usize,
}

impl Prepared<'_> {
    ghost use Rattle.std.specs.Prelude.{◌<◌, ◌≤◌, true, length, []};
    ghost use Rattle.model.specs.Index.{transition};
    ghost use Rattle.tree.specs.Upper as upper;
    ghost use Rattle.tree.specs.States as states;
    ghost use Rattle.tree.specs.Marks as marks;
    ghost use Rattle.tables.specs.Internal.Classes.{class_for};
    ghost use Rattle.tables.specs.Internal.Tables.{step_factor, step_factor_kept};
    ghost use Rattle.path.specs.Internal.Paths.{own_grains, step_class};

    // The class and the state that the transition j leaves.
    // kept: (d) j < length table, here, below and in `tables`: how many transitions there are the model says, not a type of an index; a `Walked` has it for its
    // entries.
    pub(crate) fn leaving(&self, j: usize) -> Leaving
        requires { j < length (net_of self.now.words.now).table }
        ensures class_value { class_for result.class ≡ step_class (net_of self.now.words.now) j }
        ensures state_value { result.state ≡ (transition (net_of self.now.words.now) j).from }
    {
        let w = self.index.word_of(self.words, j);
        let state = from(w);
        let class = Class::of(is_fast(w), self.table.states[state].mean_up.figure());
        Leaving { class, state }
    }

    // The rate or the probability of the transition j.
    pub(crate) fn share<A: Arithmetic>(&self, j: usize) -> A
        requires { j < length (net_of self.now.words.now).table }
        ensures { A.Is result (upper.share (transition (net_of self.now.words.now) j).manner) true }
    {
        A::exact(self.table.steps[j].share.figure())
    }

    // Its factor in a lower.
    pub(crate) fn factor<A: Arithmetic>(&self, j: usize) -> A
        requires { j < length (net_of self.now.words.now).table }
        ensures { A.Is result (step_factor (net_of self.now.words.now) (step_class (net_of self.now.words.now) j) (transition (net_of self.now.words.now) j)) (step_factor_kept (net_of self.now.words.now) (step_class (net_of self.now.words.now) j) (transition (net_of self.now.words.now) j)) }
    {
        self.table.steps[j].factor.value()
    }

    // Its grains.
    pub(crate) fn grains(&self, j: usize) -> u64
        requires { j < length (net_of self.now.words.now).table }
        ensures { (result ≡ own_grains (net_of self.now.words.now) (transition (net_of self.now.words.now) j)) × (result ≤ 1000000) }
    {
        self.table.steps[j].grains.count()
    }

    // Whether nothing was lost on the way to them.
    pub(crate) fn is_grains_kept(&self, j: usize) -> bool
        requires { j < length (net_of self.now.words.now).table }
        ensures { result ≡ marks.grains_kept (net_of self.now.words.now) [] (transition (net_of self.now.words.now) j) }
    {
        self.table.steps[j].grains.is_kept()
    }

    // E of a state.
    pub(crate) fn rate_sum<A: Arithmetic>(&self, state: usize) -> A
        requires { (1 ≤ state) × (state ≤ (described self.now.words.now).states) }
        ensures { A.Is result (states.rate_sum (net_of self.now.words.now) state) (marks.rate_sum_kept (net_of self.now.words.now) state) }
    {
        self.table.states[state].rate.value()
    }

    // h of a state.
    pub(crate) fn mean_up<A: Arithmetic>(&self, state: usize) -> A
        requires { (1 ≤ state) × (state ≤ (described self.now.words.now).states) }
        ensures { A.Is result (states.mean_up (net_of self.now.words.now) state) (marks.mean_up_kept (net_of self.now.words.now) state) }
    {
        self.table.states[state].mean_up.value()
    }
}
