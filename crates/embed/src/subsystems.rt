// Pairs of figures as plain numbers, and their combination as plain numbers.
ghost use Rattle.std.specs.Prelude.{◌≡◌, ◌<◌};
ghost use Rattle.orprob.specs.Promise.{answer_of};
ghost use Rattle.embed.specs.Subsystems as definition;
ghost use Rattle.embed.specs.Subsystems.{OrPut};

use figure::Figure;
use orprob::{MOST_PAIRS, OrRefusal, Pair};
use std::array;

// The pair with this index: its lower stands at twice that, its upper behind it.
// kept: (a) C hands over the digits and the powers in two arrays.
fn pair_given(digits: &[u64; 32], powers: &[i32; 32], i: usize) -> Pair
    requires { i < 16 }
    ensures { result ≡ definition.pair_given digits.now powers.now i }
{
    let k = 2 * i;
    let lower = Figure {
        digits: digits[k],
        power: powers[k],
    };
    let upper = Figure {
        digits: digits[k + 1],
        power: powers[k + 1],
    };
    Pair { lower, upper }
}

// The pairs that the numbers give, as many as there is room for.
pub(crate) fn pairs_given(digits: &[u64; 32], powers: &[i32; 32]) -> [Pair; MOST_PAIRS]
    ensures { result ≡ definition.pairs_given digits.now powers.now }
{
    array::from_fn(|i| pair_given(digits, powers, i))
}

// The number of an answer, 0 for two figures, and its numbers.
// kept: (a) numbers, as all that C is answered.
#[tactic(auto, unfolding(crate::specs::Subsystems::or_values))]
pub(crate) fn put_combined(
    a: Result<Pair, OrRefusal>,
    or_values: &mut [u64; 3],
    or_powers: &mut [i32; 2],
) -> u64
    ensures { OrPut (answer_of a) result or_values.new or_powers.new }
{
    match a {
        Ok(Pair { lower, upper }) => {
            *or_values = [0, lower.digits, upper.digits];
            *or_powers = [lower.power, upper.power];
            0
        }
        Err(refusal) => {
            *or_values = [refusal.place() as u64, 0, 0];
            *or_powers = [0, 0];
            refusal.number()
        }
    }
}
