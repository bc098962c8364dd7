// Grains: the least n whose cube or square reaches g.
ghost use Rattle.std.specs.Prelude.{◌≡◌, ◌^◌, ◌<◌, ◌≤◌};
ghost use Rattle.figure.specs.Rounding.{IsFigure};
ghost use Rattle.tree.specs.Grains as goal;
ghost use Rattle.tables.specs.Internal.Roots.{exponent, Below};

use figure::Figure;

// The power of n that is to reach g: the cube for class 2, the square for class 3.
#[derive(Clone, Copy)]
pub(crate) enum Power {
    Square,
    Cube,
}

impl Power {
    fn of(self, n: u64) -> u64
        requires { n < 1000000 }
        ensures { result ≡ n ^ exponent self }
    {
        match self {
            Power::Square => n * n,
            Power::Cube => n * n * n,
        }
    }
}

// A number below 1,000,000 whose power is below c, or 0: the greatest, found by bits.
fn close_below(power: Power, c: u64) -> u64
    ensures { Below (exponent power) c result }
{
    let mut n = 0;
    for place in 0..20u32 {
        let m = n + (524_288 >> place);
        if m < 1_000_000 && power.of(m) < c {
            n = m;
        }
    }
    n
}

// The least n from 1 on whose power is at or above g, or 1,000,000 if none below it will do.
pub(crate) fn least(power: Power, g: Figure) -> u64
    requires { IsFigure 9 g }
    ensures value { result ≡ goal.least (exponent power) g }
    ensures upper_bound { result ≤ 1000000 }
{
    let c = g.ceiling();
    let mut n = close_below(power, c) + 1;
    // kept: (a) document 01 names this form: a loop that yields the least n, by break
    loop {
        if 1_000_000 <= n {
            break 1_000_000;
        }
        if c <= power.of(n) {
            break n;
        }
        n += 1;
    }
}
