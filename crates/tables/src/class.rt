// The class of a step.
ghost use Rattle.std.specs.Prelude.{◌≡◌, ◌≤◌};
ghost use Rattle.tree.specs.Paths.{counts_1};
ghost use Rattle.tables.specs.Internal.Classes.{class_by, class_for, is_class1, is_slow};

use figure::Figure;

// Class 1: a slow step from a state without fast exits. Class 2: a fast step. Class 3: a slow step from a state with fast exits.
#[derive(Clone, Copy, PartialEq, Eq)]
pub enum Class {
    Class1,
    Class2,
    Class3,
}

impl Class {
    // The class of a transition, by whether it is fast and by h of the state that it leaves, which is 0 exactly if that has no fast exits.
    pub fn of(fast: bool, mean: Figure) -> Class
        ensures { class_for result ≡ class_by fast mean.digits }
    {
        match (fast, mean.digits) {
            (true, _) => Class::Class2,
            (false, 0) => Class::Class1,
            (false, _) => Class::Class3,
        }
    }

    pub fn is_class1(self) -> bool
        ensures { result ≡ is_class1 (class_for self) }
    {
        matches!(self, Class::Class1)
    }

    // Whether a step of this class is slow.
    pub fn is_slow(self) -> bool
        ensures { result ≡ is_slow (class_for self) }
    {
        !matches!(self, Class::Class2)
    }

    // How many class 1 steps a step of this class is.
    pub fn counts_1(self) -> u64
        ensures { (result ≡ counts_1 (class_for self)) × (result ≤ 1) }
    {
        u64::from(self.is_class1())
    }
}
