// Figures: nine digits and a power of ten, every operation rounded once, in the direction that it is given. Totals have the same form with eighteen digits.
// Each operation is there for figures alone, and for figures that tell whether anything was lost: these round both ways, and nothing is lost exactly if both
// come to the same figure.
#![tactic(auto)]

ghost use Rattle.std.specs.Prelude.{◌≡◌, ◌≤◌, ◌<◌};
ghost use Rattle.std.specs.Int.Signed.{mag};
ghost use Rattle.figure.specs.Rounding.{none, IsFigure};
ghost use Rattle.figure.specs.Operands.{Operand};
ghost use Rattle.figure.specs.Operations as ops;
ghost use Rattle.figure.specs.Tested.{figure_test};
ghost use Rattle.figure.specs.Internal.Ceiling.{Ceiling};
ghost use Rattle.figure.specs.Internal.Directions as directions;

mod ceiling;
mod difference;
mod division;
mod generic;
mod powers;
mod product;
mod quotient;
mod sum;
mod total;
mod whole;

use division::Width;
pub use generic::Arithmetic;

// kept: (a) its fields are free: a caller through C hands over any digits and any power, and lends rows that hold any. So an operation asks for a figure of so
// many digits (`IsFigure`), with a power in the range that it needs (`Operand`, `Sized`), here and in the crates above; `is_figure` is the test.
#[repr(C)]
#[derive(Clone, Copy, PartialEq, Eq)]
pub struct Figure {
    pub digits: u64,
    pub power: i32,
}

// Which way an operation rounds: to the greatest figure not above the exact result, or to the least not below it.
#[derive(Clone, Copy, PartialEq, Eq)]
pub enum Direction {
    Down,
    Up,
}

impl Direction {
    fn opposite(self) -> Direction
        ensures { result ≡ directions.opposite self }
    {
        match self {
            Direction::Down => Direction::Up,
            Direction::Up => Direction::Down,
        }
    }
}

// A figure that something was rounded to, and whether nothing was lost. The figure counts either way, so no Option.
#[derive(Clone, Copy)]
pub struct Rounded {
    pub figure: Figure,
    pub kept: bool,
}

impl Figure {
    pub fn zero() -> Figure
        ensures { result ≡ none }
    {
        Figure {
            digits: 0,
            power: 0,
        }
    }

    // Whether it is a figure: zero held with power 0, or nine digits. It takes any digits and any power.
    pub fn is_figure(self) -> bool
        ensures { result ≡ figure_test self }
    {
        match self.digits {
            0 => self.power == 0,
            100_000_000..=999_999_999 => true,
            _ => false,
        }
    }

    // The whole number n, rounded down; exact up to nine digits.
    pub fn of_whole(n: u64) -> Figure
        ensures { result ≡ ops.of_whole n }
    {
        whole::fitted(Direction::Down, n, 0)
    }

    // The quantity c / 10^p, rounded up; exact up to nine digits, as a word table's is.
    pub fn of_quantity(c: u32, p: u32) -> Figure
        requires { p ≤ 255 }
        ensures { result ≡ ops.of_quantity c p }
    {
        whole::fitted(Direction::Up, u64::from(c), -(p as i32))
    }

    // kept: (d) what the methods promise stands here together; the file of each operation has its steps and the helpers that it alone needs.
    // The product, rounded as `to` says.
    pub fn times(self, other: Figure, to: Direction) -> Figure
        requires { Operand 9 self × Operand 9 other }
        ensures { result ≡ ops.times to self other }
    {
        product::times(to, self, other)
    }

    pub fn plus(self, other: Figure, to: Direction) -> Figure
        requires { Operand 9 self × Operand 9 other }
        ensures { result ≡ ops.plus to self other }
    {
        sum::plus(to, Width::Nine, self, other)
    }

    // The difference; zero where it is not positive.
    pub fn minus(self, other: Figure, to: Direction) -> Figure
        requires { Operand 9 self × Operand 9 other }
        ensures { result ≡ ops.minus to self other }
    {
        difference::minus(to, self, other)
    }

    pub fn divided(self, other: Figure, to: Direction) -> Figure
        requires { Operand 9 self × Operand 9 other × (0 < other.digits) }
        ensures { result ≡ ops.divided to self other }
    {
        quotient::divided(to, self, other)
    }

    // A total of eighteen digits, with a figure of nine added.
    // kept: (d) a total is a figure of eighteen digits: `value`, sums and roundings are one definition over both widths; a type for it would unwrap at each.
    pub fn total(self, a: Figure, to: Direction) -> Figure
        requires { Operand 18 self × Operand 9 a }
        ensures { result ≡ ops.total to self a }
    {
        sum::plus(to, Width::Eighteen, self, total::widened(a))
    }

    // A total, to nine digits.
    pub fn to_nine(self, to: Direction) -> Figure
        requires { Operand 18 self }
        ensures { result ≡ ops.to_nine to self }
    {
        total::to_nine(to, self)
    }

    // The sum of two totals, to nine digits.
    pub fn sum_to_nine(self, other: Figure, to: Direction) -> Figure
        requires { Operand 18 self × Operand 18 other }
        ensures { result ≡ ops.sum_to_nine to self other }
    {
        total::sum_to_nine(to, self, other)
    }

    // Times ten to the power p, exactly.
    pub fn times_ten(self, p: i32) -> Figure
        requires { Operand 9 self × (mag p ≤ 100000) }
        ensures { result ≡ ops.times_ten self p }
    {
        if self.digits == 0 {
            return self;
        }
        Figure {
            digits: self.digits,
            power: self.power + p,
        }
    }

    // The least whole number not below it, or 10^18 where that is less.
    pub fn ceiling(self) -> u64
        requires { IsFigure 9 self }
        ensures { Ceiling self result }
    {
        ceiling::ceiling(self)
    }

    // kept: (d) no derived order, since zero, held with power 0, is below every other figure; an `Ord` by hand would be these lines and the proofs of its laws.
    pub fn at_or_below(self, other: Figure) -> bool
        requires { IsFigure 9 self × IsFigure 9 other }
        ensures { result ≡ ops.at_or_below self other }
    {
        if self.digits == 0 {
            return true;
        }
        if other.digits == 0 {
            return false;
        }
        (self.power, self.digits) <= (other.power, other.digits)
    }
}
