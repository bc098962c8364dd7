// The exits of one state, as the index has them.
ghost use Rattle.std.specs.Prelude.{◌≤◌, ◌≡◌, length, take};

// The numbers of a state's exits in the table stand in the first `count` slots; `named` says whether the state is one of the generator's.
// kept: (a) an array and a count, since nothing is allocated
#[derive(Clone, Copy)]
pub struct StateExits {
    pub slots: [u16; 16],
    pub count: u16,
    pub named: bool,
}

impl StateExits {
    // A state without exits, which is none of the generator's.
    pub const NONE: StateExits = StateExits {
        slots: [0; 16],
        count: 0,
        named: false,
    };

    // Their numbers. Where more are counted than there are slots, as reading never does, it is all slots.
    pub(crate) fn numbers(&self) -> &[u16]
        ensures value { result.now ≡ take self.now.count self.now.slots }
        ensures len { self.now.count ≤ 16 → length result.now ≡ self.now.count }
    {
        &self.slots[..usize::from(self.count).min(16)]
    }
}
