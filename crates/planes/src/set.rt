// Sets in 64 lanes at once: members and subsets.
ghost use Rattle.std.specs.Prelude.{◌≡◌};
ghost use Rattle.bits.specs.Set.{size_of, in_set, subset_of};
ghost use Rattle.planes.specs.Word.{Told, number_in};

use super::operand::{Operand, bit, order};

// How many members a set of size n can have.
#[tactic(auto, unfolding(bits::specs::Set::size_of))]
fn size_of(n: u8) -> usize
    ensures { result ≡ size_of n }
{
    n.min(8) as usize
}

// Where i is a member of the operand.
fn has(planes: &[u64; 8], o: Operand, i: usize) -> u64
    ensures { Told planes.now (λ v. in_set o.size (number_in o v) i) result }
{
    let n = size_of(o.size);
    if i < n { bit(planes, o, n - 1 - i) } else { 0 }
}

// Where the number of operand x is a member of operand y.
pub(super) fn member(planes: &[u64; 8], x: Operand, y: Operand) -> u64
    ensures { Told planes.now (λ v. in_set y.size (number_in y v) (number_in x v)) result }
{
    if x.bits == 0 {
        return has(planes, y, x.number as usize);
    }
    let mut r = 0;
    for i in 0..8 {
        let o = order(planes, x, Operand::constant(i, 0));
        r |= o.same & has(planes, y, i as usize);
    }
    r
}

// Where every member of operand x is one of operand y.
pub(super) fn subset(planes: &[u64; 8], x: Operand, y: Operand) -> u64
    ensures { Told planes.now (λ v. subset_of x.size (number_in x v) y.size (number_in y v)) result }
{
    let mut r = u64::MAX;
    for i in 0..size_of(x.size) {
        r &= !has(planes, x, i) | has(planes, y, i);
    }
    r
}
