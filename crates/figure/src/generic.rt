// Arithmetic that is written once, for figures alone and for figures that tell whether anything was lost on the way to them.
ghost use Rattle.std.specs.Prelude.{◌≡◌, ◌≤◌, ◌<◌, ◌&&◌, Bool, true, refl};
ghost use Rattle.std.specs.Int.Signed.{mag};
ghost use Rattle.std.proofs.Common.{ap};
ghost use Rattle.figure.specs.declared.Direction.{Direction};
ghost use Rattle.figure.specs.declared.Figure.{Figure};
ghost use Rattle.figure.specs.Operands.{Operand};
ghost use Rattle.figure.specs.Operations as ops;
ghost use Rattle.figure.specs.Losses as losses;
ghost use Rattle.figure.specs.Losses.{told};
ghost use Rattle.figure.specs.Internal.Directions.{opposite, same};

use crate::{Direction, Figure, Rounded, whole};

// The operations on figures, with what each makes of the marks. A `Figure` does what its own methods of these names do, and tells nothing; a `Rounded` tells
// as well whether nothing was lost: of both operands, and by the operation itself.
pub trait Arithmetic: Copy {
    // the figure of a value
    ghost figure_of: { Self → Figure };

    // `Is x f k`: x is the figure f, and if x tells, its mark is k
    ghost Is: { Self → Figure → Bool → Type 0 };

    // A figure with the mark that it has so far.
    // kept: (d) here and below, `figure_value` follows from `mark_value` by the two laws at the end: so a caller who needs the figure alone cites no law.
    fn marked(figure: Figure, kept: bool) -> Self
        ensures figure_value { figure_of result ≡ figure }
        ensures mark_value { Is result figure kept };

    // A figure that nothing was lost of.
    fn exact(figure: Figure) -> Self
        ensures figure_value { figure_of result ≡ figure }
        ensures mark_value { Is result figure true }
    {
        Self::marked(figure, true)
    }

    fn of_whole(n: u64) -> Self
        ensures figure_value { figure_of result ≡ ops.of_whole n }
        ensures mark_value { Is result (ops.of_whole n) (losses.whole_keeps n) };

    // Nothing here calls it: the crates above read quantities as figures alone; but each operation is to tell whether anything was lost.
    fn of_quantity(c: u32, p: u32) -> Self
        requires { p ≤ 255 }
        ensures figure_value { figure_of result ≡ ops.of_quantity c p }
        ensures mark_value { Is result (ops.of_quantity c p) (losses.quantity_keeps c p) };

    fn figure(self) -> Figure
        ensures { result ≡ figure_of self };

    fn times_ten(self, p: i32) -> Self
        requires { Operand 9 (figure_of self) × (mag p ≤ 100000) }
        ensures figure_value { figure_of result ≡ ops.times_ten (figure_of self) p }
        ensures mark_value { (f : Figure) (k : Bool) → Is self f k → Is result (ops.times_ten f p) k };

    fn times(self, other: Self, to: Direction) -> Self
        requires { Operand 9 (figure_of self) × Operand 9 (figure_of other) }
        ensures figure_value { figure_of result ≡ ops.times to (figure_of self) (figure_of other) }
        ensures mark_value { (f g : Figure) (k m : Bool) → Is self f k → Is other g m → Is result (ops.times to f g) (k && (m && losses.times_keeps f g)) };

    fn plus(self, other: Self, to: Direction) -> Self
        requires { Operand 9 (figure_of self) × Operand 9 (figure_of other) }
        ensures figure_value { figure_of result ≡ ops.plus to (figure_of self) (figure_of other) }
        ensures mark_value { (f g : Figure) (k m : Bool) → Is self f k → Is other g m → Is result (ops.plus to f g) (k && (m && losses.plus_keeps f g)) };

    fn minus(self, other: Self, to: Direction) -> Self
        requires { Operand 9 (figure_of self) × Operand 9 (figure_of other) }
        ensures figure_value { figure_of result ≡ ops.minus to (figure_of self) (figure_of other) }
        ensures mark_value { (f g : Figure) (k m : Bool) → Is self f k → Is other g m → Is result (ops.minus to f g) (k && (m && losses.minus_keeps f g)) };

    fn divided(self, other: Self, to: Direction) -> Self
        requires { Operand 9 (figure_of self) × Operand 9 (figure_of other) × (0 < (figure_of other).digits) }
        ensures figure_value { figure_of result ≡ ops.divided to (figure_of self) (figure_of other) }
        ensures mark_value { (f g : Figure) (k m : Bool) → Is self f k → Is other g m → Is result (ops.divided to f g) (k && (m && losses.divided_keeps f g)) };

    fn total(self, a: Self, to: Direction) -> Self
        requires { Operand 18 (figure_of self) × Operand 9 (figure_of a) }
        ensures figure_value { figure_of result ≡ ops.total to (figure_of self) (figure_of a) }
        ensures mark_value { (f g : Figure) (k m : Bool) → Is self f k → Is a g m → Is result (ops.total to f g) (k && (m && losses.total_keeps f g)) };

    fn to_nine(self, to: Direction) -> Self
        requires { Operand 18 (figure_of self) }
        ensures figure_value { figure_of result ≡ ops.to_nine to (figure_of self) }
        ensures mark_value { (f : Figure) (k : Bool) → Is self f k → Is result (ops.to_nine to f) (k && losses.to_nine_keeps f) };

    fn sum_to_nine(self, other: Self, to: Direction) -> Self
        requires { Operand 18 (figure_of self) × Operand 18 (figure_of other) }
        ensures figure_value { figure_of result ≡ ops.sum_to_nine to (figure_of self) (figure_of other) }
        ensures mark_value { (f g : Figure) (k m : Bool) → Is self f k → Is other g m → Is result (ops.sum_to_nine to f g) (k && (m && losses.sum_to_nine_keeps f g)) };

    // a value is one figure
    ghost figure_is: { (x : Self) (f : Figure) (k : Bool) → Is x f k → figure_of x ≡ f };

    // and it has a mark
    ghost tells: { (x : Self) → (k : Bool) × Is x (figure_of x) k };
}

// kept: (d) a `Figure` has these methods itself, so that callers of one need not bring in the trait; they hand on to them.
impl Arithmetic for Figure {
    ghost figure_of = { λ x. x };

    ghost Is = { λ x f _. x ≡ f };

    fn marked(figure: Figure, _kept: bool) -> Figure {
        figure
    }

    fn of_whole(n: u64) -> Figure {
        Figure::of_whole(n)
    }

    fn of_quantity(c: u32, p: u32) -> Figure {
        Figure::of_quantity(c, p)
    }

    fn figure(self) -> Figure {
        self
    }

    fn times_ten(self, p: i32) -> Figure {
        self.times_ten(p)
    }

    fn times(self, other: Figure, to: Direction) -> Figure {
        self.times(other, to)
    }

    fn plus(self, other: Figure, to: Direction) -> Figure {
        self.plus(other, to)
    }

    fn minus(self, other: Figure, to: Direction) -> Figure {
        self.minus(other, to)
    }

    fn divided(self, other: Figure, to: Direction) -> Figure {
        self.divided(other, to)
    }

    fn total(self, a: Figure, to: Direction) -> Figure {
        self.total(a, to)
    }

    fn to_nine(self, to: Direction) -> Figure {
        self.to_nine(to)
    }

    fn sum_to_nine(self, other: Figure, to: Direction) -> Figure {
        self.sum_to_nine(other, to)
    }

    ghost figure_is = { λ x f k e. e };

    ghost tells = { λ x. (true, refl) };
}

impl Rounded {
    // An operation that is rounded as `to` says, and the other way too: nothing is lost exactly if both come to the same figure, and nothing was lost of its
    // operands.
    fn both_ways<F: Fn(Direction) -> Figure>(to: Direction, kept: bool, operation: F) -> Rounded
        requires { F.IsAlwaysCallable operation }
        ensures { (op : Direction → Figure) → ((d : Direction) (f : Figure) → F.post operation d f → f ≡ op d) → result ≡ told (op to) (kept && same (op to) (op (opposite to))) }
    {
        let figure = operation(to);
        let turned = operation(to.opposite());
        Rounded {
            figure,
            kept: kept & (figure == turned),
        }
    }
}

impl Arithmetic for Rounded {
    ghost figure_of = { λ x. x.figure };

    ghost Is = { λ x f k. x ≡ told f k };

    fn marked(figure: Figure, kept: bool) -> Rounded {
        Rounded { figure, kept }
    }

    fn of_whole(n: u64) -> Rounded
        ensures { result ≡ told (ops.of_whole n) (losses.whole_keeps n) }
    {
        Rounded::both_ways(Direction::Down, true, |d| whole::fitted(d, n, 0))
    }

    fn of_quantity(c: u32, p: u32) -> Rounded
        requires { p ≤ 255 }
        ensures { result ≡ told (ops.of_quantity c p) (losses.quantity_keeps c p) }
    {
        let n = u64::from(c);
        let power = -(p as i32);
        Rounded::both_ways(Direction::Up, true, |d| whole::fitted(d, n, power))
    }

    fn figure(self) -> Figure {
        self.figure
    }

    fn times_ten(self, p: i32) -> Rounded
        requires { Operand 9 self.figure × (mag p ≤ 100000) }
        ensures { result ≡ told (ops.times_ten self.figure p) self.kept }
    {
        let figure = self.figure.times_ten(p);
        Rounded {
            figure,
            kept: self.kept,
        }
    }

    fn times(self, other: Rounded, to: Direction) -> Rounded
        requires { Operand 9 self.figure × Operand 9 other.figure }
        ensures { result ≡ told (ops.times to self.figure other.figure) (self.kept && (other.kept && losses.times_keeps self.figure other.figure)) }
    {
        let kept = self.kept & other.kept;
        Rounded::both_ways(to, kept, |d| self.figure.times(other.figure, d))
    }

    fn plus(self, other: Rounded, to: Direction) -> Rounded
        requires { Operand 9 self.figure × Operand 9 other.figure }
        ensures { result ≡ told (ops.plus to self.figure other.figure) (self.kept && (other.kept && losses.plus_keeps self.figure other.figure)) }
    {
        let kept = self.kept & other.kept;
        Rounded::both_ways(to, kept, |d| self.figure.plus(other.figure, d))
    }

    fn minus(self, other: Rounded, to: Direction) -> Rounded
        requires { Operand 9 self.figure × Operand 9 other.figure }
        ensures { result ≡ told (ops.minus to self.figure other.figure) (self.kept && (other.kept && losses.minus_keeps self.figure other.figure)) }
    {
        let kept = self.kept & other.kept;
        Rounded::both_ways(to, kept, |d| self.figure.minus(other.figure, d))
    }

    fn divided(self, other: Rounded, to: Direction) -> Rounded
        requires { Operand 9 self.figure × Operand 9 other.figure × (0 < other.figure.digits) }
        ensures { result ≡ told (ops.divided to self.figure other.figure) (self.kept && (other.kept && losses.divided_keeps self.figure other.figure)) }
    {
        let kept = self.kept & other.kept;
        Rounded::both_ways(to, kept, |d| self.figure.divided(other.figure, d))
    }

    fn total(self, a: Rounded, to: Direction) -> Rounded
        requires { Operand 18 self.figure × Operand 9 a.figure }
        ensures { result ≡ told (ops.total to self.figure a.figure) (self.kept && (a.kept && losses.total_keeps self.figure a.figure)) }
    {
        let kept = self.kept & a.kept;
        Rounded::both_ways(to, kept, |d| self.figure.total(a.figure, d))
    }

    fn to_nine(self, to: Direction) -> Rounded
        requires { Operand 18 self.figure }
        ensures { result ≡ told (ops.to_nine to self.figure) (self.kept && losses.to_nine_keeps self.figure) }
    {
        Rounded::both_ways(to, self.kept, |d| self.figure.to_nine(d))
    }

    fn sum_to_nine(self, other: Rounded, to: Direction) -> Rounded
        requires { Operand 18 self.figure × Operand 18 other.figure }
        ensures { result ≡ told (ops.sum_to_nine to self.figure other.figure) (self.kept && (other.kept && losses.sum_to_nine_keeps self.figure other.figure)) }
    {
        let kept = self.kept & other.kept;
        Rounded::both_ways(to, kept, |d| self.figure.sum_to_nine(other.figure, d))
    }

    ghost figure_is = { λ x f k e. ap (λ r. r.figure) e };

    ghost tells = { λ x. (x.kept, refl) };
}
