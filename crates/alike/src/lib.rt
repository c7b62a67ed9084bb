// Packed values of a holder that a formula cannot tell apart: one of each kind is enough to ask.
#![tactic(auto)]

ghost use Rattle.std.specs.Prelude.{ℕ, ◌+◌, ◌*◌, ◌<◌, get_or};
ghost use Rattle.policy.specs.Rules.{lists_of, nodes_of};
ghost use Rattle.alike.specs.Alike.{OneOfEach};
ghost use Rattle.alike.specs.Mask.{Keeps, KeepsNode, OneOfEachIn};

mod fields;

use fields::fields_of;
use formulas::table::byte_of;
use planes::class_of;
use policy::Classes;

// The mask of a field: `bits` bits from bit `shift` on.
fn field_mask(shift: u8, bits: u8) -> u64
    ensures { Keeps shift bits result }
{
    let from = byte_of(shift as usize);
    let to = from + byte_of(bits as usize);
    (1u64 << to) - (1u64 << from)
}

// The bits of both operands of a node, if it is a comparison.
fn node_mask(shifts: &[u8; 256], bits: &[u8; 256], node: u32) -> u64
    ensures { KeepsNode shifts.now bits.now node result }
{
    if node / 65536 < 5 {
        return 0;
    }
    let a = (node / 256 % 256) as usize;
    let b = (node % 256) as usize;
    field_mask(shifts[a], bits[a]) | field_mask(shifts[b], bits[b])
}

// The bits of the operands of all comparisons of formula f.
fn formula_mask<'a>(
    shifts: &'a [u8; 256],
    bits: &'a [u8; 256],
    nodes: &[u32],
    f: usize,
    n: usize,
) -> u64
    ensures { (k : ℕ) → k < n → KeepsNode shifts.now bits.now (get_or nodes.now (64 * f + k) 0) result }
{
    let mut m = 0;
    for k in 0..n {
        m |= node_mask(shifts, bits, formulas::node::at(nodes, f, k));
    }
    m
}

// Of the values among those that are asked about, the last one with each choice of the bits of m.
fn one_of_each_in(m: u64, among: [u64; 4]) -> [u64; 4]
    ensures { OneOfEachIn m among result }
{
    let mut r = lanes::none();
    let mut met = lanes::none();
    for v in lanes::members(among).rev() {
        let bits = (v as u64 & m) as usize;
        if !lanes::has(met, bits) {
            let more = lanes::add(r, v);
            let now_met = lanes::add(met, bits);
            r = more;
            met = now_met;
        }
    }
    r
}

// Of the values among those that are asked about, one of each kind that formula f, whose n nodes stand among the lent ones as in rules, tells apart: the
// last.
pub fn one_of_each(
    classes: Classes,
    nodes: &[u32],
    f: usize,
    n: usize,
    h: u8,
    among: [u64; 4],
) -> [u64; 4]
    ensures { OneOfEach (lists_of classes) (nodes_of nodes.now f n) h among result }
{
    let l = fields_of(class_of(classes, h), h);
    one_of_each_in(formula_mask(&l.shifts, &l.bits, nodes, f, n), among)
}
