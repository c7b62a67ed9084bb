// Operands in 64 lanes at once: their bits, and their order by number.
ghost use Rattle.std.specs.Prelude.{ltb, eqb, ◌≡◌, ◌/◌, ◌^◌};
ghost use Rattle.lanes.specs.Lanes.{bit_of};
ghost use Rattle.planes.specs.Word.{Told, number_in};

use super::word::whole;
use bits::get_or;

// An operand: so many bits of the lane's number as `bits` says, from bit `shift` on, and above them the bits of one number. Its list has `size`
// values.
#[derive(Clone, Copy)]
pub struct Operand {
    pub shift: u8,
    pub bits: u8,
    pub number: u8,
    pub size: u8,
}

impl Operand {
    // One number in all lanes.
    pub fn constant(number: u8, size: u8) -> Operand
        ensures { result ≡ record { shift = 0; bits = 0; number = number; size = size } }
    {
        Operand {
            shift: 0,
            bits: 0,
            number,
            size,
        }
    }
}

// Where one number is below another, and where they are the same.
#[derive(Clone, Copy)]
pub(super) struct Ordered {
    pub(super) below: u64,
    pub(super) same: u64,
}

// Bit k of an operand.
pub(super) fn bit(planes: &[u64; 8], o: Operand, k: usize) -> u64
    ensures { Told planes.now (λ v. bit_of (number_in o v) k) result }
{
    if k < o.bits as usize {
        return get_or(planes, o.shift as usize + k, 0);
    }
    if k < 8 {
        whole((o.number >> k) % 2 == 1)
    } else {
        0
    }
}

// x without its last k bits.
pub fn high(x: u8, k: u8) -> u8
    ensures { result ≡ x / 2 ^ k }
{
    if k < 8 { x >> k } else { 0 }
}

// Where operand x is below operand y, and where they are the same: bit by bit, from the first that is no field's.
pub(super) fn order(planes: &[u64; 8], x: Operand, y: Operand) -> Ordered
    ensures below { Told planes.now (λ v. ltb (number_in x v) (number_in y v)) result.below }
    ensures same { Told planes.now (λ v. eqb (number_in x v) (number_in y v)) result.same }
{
    let n = x.bits.max(y.bits);
    let a = high(x.number, n);
    let b = high(y.number, n);
    let mut below = whole(a < b);
    let mut same = whole(a == b);
    for k in (0..n as usize).rev() {
        let p = bit(planes, x, k);
        let q = bit(planes, y, k);
        below |= same & (!p & q);
        same &= !(p ^ q);
    }
    Ordered { below, same }
}
