// Whole numbers times a power of ten, as figures.
ghost use Rattle.std.specs.Prelude.{◌≡◌, ◌^◌, ◌≤◌, ◌<◌};
ghost use Rattle.std.specs.Int.Signed.{mag};
ghost use Rattle.figure.specs.Rounding.{figure, value};
ghost use Rattle.figure.specs.Internal.Steps.{rounded};

use crate::division::{Part, Width};
use crate::{Direction, Figure, powers};

// n times ten to power, rounded up or down to nine digits: zeros are put behind few digits, and the last of many divided off.
pub(crate) fn fitted(to: Direction, n: u64, power: i32) -> Figure
    requires { mag power ≤ 200000 }
    ensures { result ≡ rounded to 9 (value (figure n power)) }
{
    if n == 0 {
        return Figure::zero();
    }
    let count = n.ilog10() as usize + 1;
    if count <= 9 {
        let k = 9 - count;
        return Figure {
            digits: n * powers::ten_to(k),
            power: power - k as i32,
        };
    }
    let k = count - 9;
    Part::of(n, powers::ten_to(k)).directed(to, Width::Nine, power + k as i32)
}
