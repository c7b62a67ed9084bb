// Comparisons as rows of bits: one bit for each packed value of one holder, one row for each of another.
#![tactic(auto)]

ghost use Rattle.std.specs.Prelude.{◌≡◌, ◌+◌, ◌*◌, ◌≤◌, ◌<◌, length};
ghost use Rattle.policy.specs.Rules.{lists_of};
ghost use Rattle.lanes.specs.Lanes.{Lanes};
ghost use Rattle.planes.specs.Word.{compared_in};
ghost use Rattle.bitsets.specs.Rows.{bit_at, Rows, put_from};
ghost use Rattle.sides.specs.Leaf.{leaf};
ghost use Rattle.sides.specs.Side.{operand_at};
ghost use Rattle.leaves.specs.Values.{Filled};
ghost use Rattle.leaves.specs.Ways.{Laid};

mod values;

use policy::Classes;
use sides::{Side, first_alike, side_of};
use values::{Way, compared, prepare};

// What a comparison of two operands says in row i, where the rows before it are filled in from `base` on: one of them, if it has the same operands.
fn row_at(
    area: &[u64],
    hot: &[u64; 64],
    way: Way,
    base: usize,
    op: u32,
    x: Side,
    y: Side,
    i: usize,
) -> [u64; 4]
    requires filled { (i < 256) × (4 * (base + i) ≤ length area.now) × Filled op x y base i area.now }
    requires laid { Laid way x y hot.now }
    ensures { Lanes (compared_in op (operand_at x i) (operand_at y i)) result }
{
    let j = first_alike(x, y, i);
    if j < i {
        return bitsets::load(area, base + j);
    }
    compared(hot, way, op, x, y, i)
}

// The `count` rows from `base` on become what it says in row 0, row 1 and so on.
fn fill_rows(area: &mut [u64], base: usize, count: usize, op: u32, x: Side, y: Side)
    requires { (count ≤ 256) × (4 * (base + count) ≤ length area.old) }
    ensures rows { Rows (put_from base count (λ i. compared_in op (operand_at x i) (operand_at y i)) (bit_at area.old)) area.new }
    ensures area_len_unchanged { length area.new ≡ length area.old }
{
    let mut hot = [0u64; 64];
    let way = prepare(&mut hot, x, y);
    for i in 0..count {
        let r = row_at(area, &hot, way, base, op, x, y, i);
        bitsets::store(area, base + i, r);
    }
}

// The `count` rows from `base` on: bit v of row i of them is what the comparison of the node says where holder `lane` has packed value v and holder
// `row` has packed value i.
pub fn fill(
    area: &mut [u64],
    base: usize,
    count: usize,
    classes: Classes,
    lane: u8,
    row: u8,
    node: u32,
)
    requires { (count ≤ 256) × (4 * (base + count) ≤ length area.old) }
    ensures rows { Rows (put_from base count (leaf (lists_of classes) lane row node) (bit_at area.old)) area.new }
    ensures area_len_unchanged { length area.new ≡ length area.old }
{
    let op = node / 65536;
    let x = side_of(classes, lane, row, (node / 256 % 256) as u8);
    let y = side_of(classes, lane, row, (node % 256) as u8);
    fill_rows(area, base, count, op, x, y);
}
