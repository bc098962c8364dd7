// A figure in 64 bits, as the table holds it: the digits in the low 30 bits, the power, raised by 2^20, above them, and at bit 51 its mark.
ghost use Rattle.std.specs.Prelude.{◌≡◌, ◌%◌, ◌<◌, ◌≤◌, pos, ◌+ℤ◌, ◌-ℤ◌};
ghost use Rattle.std.specs.Int.Signed.{mag};
ghost use Rattle.figure.specs.Operands.{Operand};
ghost use Rattle.tables.specs.Internal.Tables.{counted, marked, mark_of, unpacked};

use figure::{Arithmetic, Figure, Rounded};

// Where the power begins, how many there are, and where the mark is.
const POWER: u64 = 1 << 30;

const POWERS: u64 = 1 << 21;

const MARK: u64 = 1 << 51;

// What raises a power above 0.
const RAISED: i32 = 1 << 20;

// A figure, or a number of grains, with its mark: whether no operation that it rests on lost anything.
// kept: (a) 64 bits and no `Rounded`: the table stands on the stack of a library that allocates nothing, and would be three times as large.
// kept: (d) a count of grains has no type of its own, since it shares the mark's bit and its reading; a table's field says which it is
#[derive(Clone, Copy, Default)]
pub struct Packed {
    bits: u64,
}

impl Packed {
    // A figure that tells, with its mark.
    // kept: (d) no `From`, here and at `packed` of `Sums` and `Step`: each asks for a range, and `from` has to take every value.
    pub(crate) fn of(x: Rounded) -> Packed
        requires { Operand 9 x.figure }
        ensures { (unpacked result ≡ x.figure) × (marked result ≡ x.kept) }
    {
        let f = x.figure;
        Packed {
            bits: f.digits + raised(f.power) * POWER + mark(x.kept),
        }
    }

    // A number of grains with its mark.
    pub(crate) fn of_count(n: u64, kept: bool) -> Packed
        requires { n ≤ 1000000 }
        ensures { (counted result ≡ n) × (marked result ≡ kept) }
    {
        Packed {
            bits: n + mark(kept),
        }
    }

    // The figure without its mark.
    pub fn figure(self) -> Figure
        ensures { result ≡ unpacked self }
    {
        let digits = self.bits % POWER;
        let power = lowered(self.bits / POWER % POWERS);
        Figure { digits, power }
    }

    // The number of grains.
    pub fn count(self) -> u64
        ensures { result ≡ counted self }
    {
        self.bits % POWER
    }

    // Whether it has the mark.
    pub fn is_kept(self) -> bool
        ensures { result ≡ marked self }
    {
        self.bits / MARK == 1
    }

    // The figure with its mark, or the figure alone.
    pub fn value<A: Arithmetic>(self) -> A
        ensures { A.Is result (unpacked self) (marked self) }
    {
        A::marked(self.figure(), self.is_kept())
    }
}

// A mark at its bit.
fn mark(kept: bool) -> u64
    ensures { result ≡ mark_of kept }
{
    u64::from(kept) * MARK
}

// A power above 0.
pub fn raised(p: i32) -> u64
    requires { mag p ≤ 100000 }
    ensures { pos result ≡ p +ℤ pos 1048576 }
{
    (p + RAISED) as u64
}

// A raised power, set back.
pub fn lowered(k: u64) -> i32
    requires { k < 2097152 }
    ensures { result ≡ pos k -ℤ pos 1048576 }
{
    (k as i32) - RAISED
}
