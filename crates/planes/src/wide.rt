// Comparisons of sets in 256 lanes at once: four words.
ghost use Rattle.std.specs.Prelude.{◌≡◌, true, ℕ, ◌+◌, ◌*◌, ◌<◌};
ghost use Rattle.lanes.specs.Lanes.{Lanes};
ghost use Rattle.planes.specs.SetComparison.{operator};
ghost use Rattle.planes.specs.Word.{Word, number_in, compared_in};

use super::comparison::{SetComparison, compare};
use super::operand::Operand;
use super::word::planes_of;

// Whether an operand is seen to be the same in every word: its field ends at bit 6, where the words begin to differ, or before it.
fn alike(o: Operand) -> bool
    ensures { result ≡ true → (w j : ℕ) → j < 64 → number_in o (64 * w + j) ≡ number_in o j }
{
    o.bits == 0 || o.shift as usize + o.bits as usize <= 6
}

// Where a comparison of sets holds in word w.
fn compare_in(w: usize, by: SetComparison, x: Operand, y: Operand) -> u64
    requires { w < 4 }
    ensures { Word (compared_in (operator by) x y) w result }
{
    let planes = planes_of(w);
    compare(&planes, by, x, y)
}

// Where a comparison of sets holds. Where both operands are the same in every word, one word is the answer in all.
pub fn compare_all(by: SetComparison, x: Operand, y: Operand) -> [u64; 4]
    ensures { Lanes (compared_in (operator by) x y) result }
{
    let first = compare_in(0, by, x, y);
    if alike(x) && alike(y) {
        return [first; 4];
    }
    [
        first,
        compare_in(1, by, x, y),
        compare_in(2, by, x, y),
        compare_in(3, by, x, y),
    ]
}
