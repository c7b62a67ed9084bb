// Operands of a comparison, by the holder whose values stand for lanes and the one whose values stand for rows.
#![tactic(auto)]

ghost use Rattle.std.specs.Prelude.{◌≡◌, ◌+◌, ◌/◌, ◌%◌, ◌^◌, ◌≤◌, ◌<◌, drop};
ghost use Rattle.policy.specs.Policy.{width};
ghost use Rattle.policy.specs.Rules.{attrs_of, lists_of};
ghost use Rattle.sides.specs.Side.{field_of, operand_at, Tells};

use formulas::table::byte_of;
use planes::class_of;
use planes::operand::Operand;
use policy::{Class, Classes};

// Where the value of an attribute lies in a packed value: how many bits stand right of it, at most 8, and how many it has itself. Its list has `size`
// values.
#[derive(Clone, Copy)]
pub struct Field {
    pub shift: u8,
    pub bits: u8,
    pub size: u8,
}

// An operand.
#[derive(Clone, Copy)]
pub enum Side {
    // A field of the row's number.
    Row(Field),
    // A field of the lane's number.
    Lane(Field),
    // One number in all lanes and rows. Its list has `size` values.
    Constant { number: u8, size: u8 },
}

// How many bits stand right of the value of attribute k.
fn right_of(class: Class, k: usize) -> usize
    requires { k < class.count }
    ensures { result ≡ width (drop (k + 1) (attrs_of class)) }
{
    let mut right: usize = 0;
    for j in (k + 1..class.count as usize).rev() {
        right += class.attribute(j).bits() as usize;
    }
    right
}

// Where the value of attribute k lies. One that is not there has no bits.
fn field_of(class: Class, k: usize) -> Field
    ensures { result ≡ field_of (attrs_of class) k }
{
    if class.count as usize <= k {
        return Field {
            shift: 0,
            bits: 0,
            size: 0,
        };
    }
    let attribute = class.attribute(k);
    Field {
        shift: byte_of(right_of(class, k)),
        bits: attribute.bits(),
        size: attribute.size,
    }
}

// Operand x.
pub fn side_of(classes: Classes, lane: u8, row: u8, x: u8) -> Side
    ensures { Tells (lists_of classes) lane row x result }
{
    let h = x / 32;
    if h == 5 {
        return Side::Constant {
            number: x % 32,
            size: 0,
        };
    }
    if 5 < h {
        return Side::Constant { number: 0, size: 0 };
    }
    let f = field_of(class_of(classes, h), (x % 32) as usize);
    if h == lane {
        return Side::Lane(f);
    }
    if h == row {
        return Side::Row(f);
    }
    Side::Constant {
        number: 0,
        size: f.size,
    }
}

// So many bits of v as `bits` says, from bit `shift` on.
pub fn part_of(v: usize, shift: u8, bits: u8) -> u8
    requires { v < 256 }
    ensures { result ≡ v / 2 ^ shift % 2 ^ bits }
{
    if 8 <= shift {
        return 0;
    }
    let x = v >> shift;
    if 8 <= bits {
        return x as u8;
    }
    (x % (1 << bits)) as u8
}

// The operand in the lanes of row i.
#[tactic(auto, unfolding(crate::specs::Side::operand_at))]
pub fn operand_at(s: Side, i: usize) -> Operand
    requires { i < 256 }
    ensures { result ≡ operand_at s i }
{
    match s {
        Side::Row(f) => Operand::constant(part_of(i, f.shift, f.bits), f.size),
        Side::Lane(f) => Operand {
            shift: f.shift,
            bits: f.bits,
            number: 0,
            size: f.size,
        },
        Side::Constant { number, size } => Operand::constant(number, size),
    }
}

// A row that is no later than row i and has the same operand.
#[tactic(auto, unfolding(crate::specs::Side::operand_at))]
fn start_of(s: Side, i: usize) -> usize
    requires { i < 256 }
    ensures upper_bound { result ≤ i }
    ensures same { operand_at s result ≡ operand_at s i }
{
    match s {
        Side::Row(f) if f.shift < 8 => (part_of(i, f.shift, f.bits) as usize) << f.shift,
        Side::Row(_) | Side::Lane(_) | Side::Constant { .. } => 0,
    }
}

// A row that is no later than row i and has the same two operands.
#[tactic(auto, unfolding(crate::specs::Side::operand_at))]
pub fn first_alike(x: Side, y: Side, i: usize) -> usize
    requires { i < 256 }
    ensures upper_bound { result ≤ i }
    ensures first_same { operand_at x result ≡ operand_at x i }
    ensures second_same { operand_at y result ≡ operand_at y i }
{
    match (x, y) {
        (Side::Row(_), Side::Row(_)) => i,
        (Side::Row(_), _) => start_of(x, i),
        _ => start_of(y, i),
    }
}
