// Text that grows at its end. Each function hands back the text with something more behind it, and requires that there is room.
// kept: (d) each asks for the room of what it writes, since how much that is no type tells.
ghost use Rattle.std.specs.Prelude.{◌+◌, ◌%◌, ◌≡◌, List, ℕ, [], ◌∷◌, ◌++◌, pos, ◌+ℤ◌};
ghost use Rattle.text.specs.Text.{digits_within, last_digits, signed_decimal, figure_text, line, decimal, figure_lines, count_lines, mark_digit, exact_line, refusal_text};
ghost use Rattle.word.specs.Refusal.{number, place};
ghost use Rattle.text.specs.Internal.Growing.{Room};

use crate::Text;
use figure::Figure;
use word::Refusal;

// What is written in one way at a text's end.
// kept: (c) not std's `Display`, which was tried. Of `write!` the text is known where it answers `Ok`, and nothing says that it does: `holds` of `words_text`,
// `answered` and `report`, which is said of every call, would be lost.
pub(crate) trait Written {
    // The bytes that it is written as.
    ghost bytes: { Self → List ℕ };

    // The text with this behind it.
    fn behind(self, text: Text) -> Text
        requires { Room text (bytes self) }
        ensures { result ≡ text ++ bytes self };
}

impl Written for u64 {
    ghost bytes = { decimal };

    fn behind(self, text: Text) -> Text {
        text.with_decimal(self, 20)
    }
}

// An exponent, with a minus sign where it is negative.
impl Written for i64 {
    ghost bytes = { signed_decimal };

    fn behind(self, text: Text) -> Text {
        let size = self.unsigned_abs();
        if self < 0 {
            return text.with_byte(b'-').with(size);
        }
        text.with(size)
    }
}

// One digit, point, eight digits, E, exponent; zero as 0.
impl Written for Figure {
    ghost bytes = { figure_text };

    fn behind(self, text: Text) -> Text {
        let d = self.digits;
        if d == 0 {
            return text.with_byte(b'0');
        }
        text.with_last(d / 100_000_000, 1)
            .with_byte(b'.')
            .with_last(d, 8)
            .with_byte(b'E')
            .with(exponent(self.power))
    }
}

// "NUMBER at PLACE".
impl Written for Refusal {
    ghost bytes = { λ f. refusal_text (number f) (place f) };

    fn behind(self, text: Text) -> Text {
        text.with(self.number())
            .with_all(b" at ")
            .with(self.place() as u64)
    }
}

// The last decimal digit of n, in ASCII.
fn digit(n: u64) -> u8
    ensures { result ≡ 48 + n % 10 }
{
    b'0' + (n % 10) as u8
}

// The digit of a mark, in ASCII.
fn mark_digit(kept: bool) -> u8
    ensures { result ≡ mark_digit kept }
{
    b'0' + u8::from(kept)
}

// The exponent of a figure with this power: its point stands eight digits from the right.
fn exponent(power: i32) -> i64
    ensures { result ≡ power +ℤ pos 8 }
{
    i64::from(power) + 8
}

impl Text {
    pub(crate) fn empty() -> Self
        ensures { result ≡ [] }
    {
        Text {
            bytes: [0; 256],
            len: 0,
        }
    }

    pub(crate) fn with<T: Written>(self, item: T) -> Self
        requires { Room self (T.bytes item) }
        ensures { result ≡ self ++ T.bytes item }
    {
        item.behind(self)
    }

    pub(crate) fn with_byte(self, b: u8) -> Self
        requires { Room self (b ∷ []) }
        ensures { result ≡ self ++ b ∷ [] }
    {
        self.with_all(&[b])
    }

    pub(crate) fn with_all(self, more: &[u8]) -> Self
        requires { Room self more.now }
        ensures { result ≡ self ++ more.now }
    {
        let mut text = self;
        let start = text.len;
        let end = start + more.len();
        let bytes = &mut text.bytes[..];
        bytes[start..end].copy_from_slice(more);
        text.len = end;
        text
    }

    // The decimal digits of n, `most` of them at most.
    // kept: (d) by recursion, as the definition is; a loop gives the last digit first, and needs a buffer to turn them round.
    fn with_decimal(self, n: u64, most: usize) -> Self
        requires { Room self (digits_within most n) }
        ensures { result ≡ self ++ digits_within most n }
    {
        if most == 0 {
            return self;
        }
        if n < 10 {
            return self.with_byte(digit(n));
        }
        self.with_decimal(n / 10, most - 1).with_byte(digit(n))
    }

    // The last k decimal digits of n.
    // kept: (d) by recursion, as `with_decimal`.
    fn with_last(self, n: u64, k: usize) -> Self
        requires { Room self (last_digits k n) }
        ensures { result ≡ self ++ last_digits k n }
    {
        if k == 0 {
            return self;
        }
        self.with_last(n / 10, k - 1).with_byte(digit(n))
    }

    // A label, what stands behind it, and the end of the line.
    pub(crate) fn with_line<T: Written>(self, label: &[u8], item: T) -> Self
        requires { Room self (line label.now (T.bytes item)) }
        ensures { result ≡ self ++ line label.now (T.bytes item) }
    {
        self.with_all(label).with(item).with_byte(b'\n')
    }

    // kept: (d) three lines here and three in `with_counts`, each as its definition has them: one function over both would be handed all labels and values.
    pub(crate) fn with_figures(self, lower: Figure, upper: Figure, cut: Figure) -> Self
        requires { Room self (figure_lines lower upper cut) }
        ensures { result ≡ self ++ figure_lines lower upper cut }
    {
        self.with_line(b"lower ", lower)
            .with_line(b"upper ", upper)
            .with_line(b"cut ", cut)
    }

    pub(crate) fn with_counts(self, deaths: u64, cuts: u64, steps: u64) -> Self
        requires { Room self (count_lines deaths cuts steps) }
        ensures { result ≡ self ++ count_lines deaths cuts steps }
    {
        self.with_line(b"deaths ", deaths)
            .with_line(b"cuts ", cuts)
            .with_line(b"steps ", steps)
    }

    pub(crate) fn with_exact(self, lower: bool, upper: bool) -> Self
        requires { Room self (exact_line (record { lower = lower; upper = upper })) }
        ensures { result ≡ self ++ exact_line (record { lower = lower; upper = upper }) }
    {
        self.with_all(b"exact ")
            .with_byte(mark_digit(lower))
            .with_byte(mark_digit(upper))
            .with_byte(b'\n')
    }
}
