// Comparisons by the values of a field of the lane's number, or lane by lane. No operator is named here.
ghost use Rattle.std.specs.Prelude.{◌≡◌, true, false, not, ◌&&◌, ◌||◌, ℕ, ◌+◌, ◌*◌, ◌/◌, ◌%◌, ◌^◌, ◌≤◌, ◌<◌, eqb, length, IfSome};
ghost use Rattle.lanes.specs.Lanes.{bit_of, lane_of, Lanes};
ghost use Rattle.planes.specs.Word.{number_in, compared_in};
ghost use Rattle.bitsets.specs.Rows.{bit_at, Rows, put};
ghost use Rattle.sides.specs.Side.{operand_at};
ghost use Rattle.leaves.specs.Values.{Hot, parted, sided};
ghost use Rattle.leaves.specs.Ways.{Laid};
ghost use Rattle.sides.specs.declared.Side.TheVariants.{Lane};

use planes::comparison::SetComparison;
use planes::operand::{Operand, high};
use planes::wide::compare_all;
use sides::{Field, Side, operand_at, part_of};

// Bit k of the lanes' numbers.
fn bit_row(k: usize) -> [u64; 4]
    ensures { Lanes (λ v. bit_of v k) result }
{
    match k {
        0 => [0xAAAA_AAAA_AAAA_AAAA; 4],
        1 => [0xCCCC_CCCC_CCCC_CCCC; 4],
        2 => [0xF0F0_F0F0_F0F0_F0F0; 4],
        3 => [0xFF00_FF00_FF00_FF00; 4],
        4 => [0xFFFF_0000_FFFF_0000; 4],
        5 => [0xFFFF_FFFF_0000_0000; 4],
        6 => [0, u64::MAX, 0, u64::MAX],
        7 => [0, 0, u64::MAX, u64::MAX],
        _ => lanes::none(),
    }
}

// The lanes of row z that are in p become row n + z, the others row z.
fn part(hot: &mut [u64], n: usize, z: usize, p: [u64; 4])
    requires { (z < n) × (4 * (n + z) + 4 ≤ length hot.old) }
    ensures rows { Rows (put z (λ v. (bit_at hot.old z v && not (lane_of p v))) (put (n + z) (λ v. (bit_at hot.old z v && lane_of p v)) (bit_at hot.old))) hot.new }
    ensures hot_len_unchanged { length hot.new ≡ length hot.old }
{
    let r = bitsets::load(hot, z);
    let inside = lanes::and(r, p);
    let outside = lanes::minus(r, p);
    bitsets::store(hot, n + z, inside);
    bitsets::store(hot, z, outside);
}

// Each of the first n rows is parted so.
fn part_all(hot: &mut [u64], n: usize, p: [u64; 4])
    requires { 8 * n ≤ length hot.old }
    ensures rows { Rows (parted n n (lane_of p) (bit_at hot.old)) hot.new }
    ensures hot_len_unchanged { length hot.new ≡ length hot.old }
{
    for z in 0..n {
        part(hot, n, z, p);
    }
}

// Row z becomes the lanes where the field of the lane's number is z.
fn value_rows(hot: &mut [u64; 64], f: Field)
    requires { f.bits ≤ 4 }
    ensures { Hot (λ v. v / 2 ^ f.shift % 2 ^ f.bits) (2 ^ f.bits) hot.new }
{
    bitsets::store(hot, 0, lanes::all());
    for k in 0..f.bits as usize {
        part_all(hot, 1 << k, bit_row(f.shift as usize + k));
    }
}

// Whether the operand has bits of the lane's number.
#[tactic(auto, unfolding(sides::specs::Side::operand_at))]
fn in_lane(y: Side) -> bool
    ensures { result ≡ false → (i : ℕ) → (operand_at y i).bits ≡ 0 }
{
    match y {
        Side::Lane(f) => f.bits != 0,
        Side::Row(_) | Side::Constant { .. } => false,
    }
}

// The field that x is, if it is one of the lane's number with at most 16 values, and y is none.
fn few(x: Side, y: Side) -> Option<Field>
    ensures { IfSome result (λ f. (x ≡ Lane f) × (f.bits ≤ 4) × ((i : ℕ) → (operand_at y i).bits ≡ 0)) }
{
    match x {
        Side::Lane(f) if f.bits != 0 && f.bits <= 4 && !in_lane(y) => Some(f),
        Side::Lane(_) | Side::Row(_) | Side::Constant { .. } => None,
    }
}

// Which operand is a field of the lane's number with few values, whose rows are laid out, while the other is none.
#[derive(Clone, Copy)]
pub(super) enum Way {
    First(Field),
    Second(Field),
    Neither,
}

// How the operands are compared: where one has few values, its rows stand in `hot`.
pub(super) fn prepare(hot: &mut [u64; 64], x: Side, y: Side) -> Way
    ensures { Laid result x y hot.new }
{
    if let Some(f) = few(x, y) {
        value_rows(hot, f);
        return Way::First(f);
    }
    if let Some(f) = few(y, x) {
        value_rows(hot, f);
        return Way::Second(f);
    }
    Way::Neither
}

// What a comparison says of a value x of the lanes' field and one number y, whose lists have m and n values. The field is the first operand or the second.
fn says(second: bool, op: u32, x: u64, m: u64, y: u64, n: u64) -> bool
    ensures { result ≡ sided second op x m y n }
{
    if second {
        return formulas::node::compare(op, y, n, x, m);
    }
    formulas::node::compare(op, x, m, y, n)
}

// The lanes of r, and those of row a where it is asked for.
fn with_row(t: &[u64], a: usize, on: bool, r: [u64; 4]) -> [u64; 4]
    requires { 4 * a + 4 ≤ length t.now }
    ensures { Lanes (λ v. (on && bit_at t.now a v || lane_of r v)) result }
{
    if on {
        return lanes::or(bitsets::load(t, a), r);
    }
    r
}

// Where a comparison holds of the field x of the lane's number and one number, whose list has n values: by what it says of each of the field's values.
fn joined(hot: &[u64; 64], x: Field, second: bool, op: u32, y: u8, n: u8) -> [u64; 4]
    requires { (x.bits ≤ 4) × Hot (λ v. v / 2 ^ x.shift % 2 ^ x.bits) (2 ^ x.bits) hot.now }
    ensures { Lanes (λ v. sided second op (v / 2 ^ x.shift % 2 ^ x.bits) x.size y n) result }
{
    let count = 1usize << x.bits;
    let mut r = lanes::none();
    for k in 0..count {
        let on = says(second, op, k as u64, x.size as u64, y as u64, n as u64);
        let t = with_row(hot, k, on, r);
        r = t;
    }
    r
}

// The lanes of r, and lane v where it is asked for.
fn with_lane(r: [u64; 4], v: usize, on: bool) -> [u64; 4]
    ensures { Lanes (λ w. (lane_of r w || (eqb w v && on))) result }
{
    if on {
        return lanes::add(r, v);
    }
    r
}

// The number of an operand in lane v.
fn number_in(o: Operand, v: usize) -> u64
    requires { v < 256 }
    ensures { result ≡ number_in o v }
{
    let part = part_of(v, o.shift, o.bits) as u64;
    if 8 <= o.bits {
        return part;
    }
    ((high(o.number, o.bits) as u64) << o.bits) + part
}

// Where a comparison of two operands holds, lane by lane.
fn lane_by_lane(op: u32, x: Operand, y: Operand) -> [u64; 4]
    ensures { Lanes (compared_in op x y) result }
{
    let mut r = lanes::none();
    for v in 0..256 {
        let a = number_in(x, v);
        let b = number_in(y, v);
        let on = formulas::node::compare(op, a, x.size as u64, b, y.size as u64);
        let t = with_lane(r, v, on);
        r = t;
    }
    r
}

// Where a comparison of two operands that are the same in all lanes holds: everywhere or nowhere.
fn once(op: u32, x: Operand, y: Operand) -> [u64; 4]
    requires { (x.bits ≡ 0) × (y.bits ≡ 0) }
    ensures { Lanes (compared_in op x y) result }
{
    let a = x.number as u64;
    let b = y.number as u64;
    if formulas::node::compare(op, a, x.size as u64, b, y.size as u64) {
        return lanes::all();
    }
    lanes::none()
}

// Where a comparison of two operands holds: once where no lane changes them, by members where they are sets, else lane by lane.
fn otherwise(op: u32, x: Operand, y: Operand) -> [u64; 4]
    ensures { Lanes (compared_in op x y) result }
{
    if x.bits == 0 && y.bits == 0 {
        return once(op, x, y);
    }
    match SetComparison::of(op) {
        Some(by) => compare_all(by, x, y),
        None => lane_by_lane(op, x, y),
    }
}

// What a comparison of two operands says in row i.
pub(super) fn compared(hot: &[u64; 64], way: Way, op: u32, x: Side, y: Side, i: usize) -> [u64; 4]
    requires { (i < 256) × Laid way x y hot.now }
    ensures { Lanes (compared_in op (operand_at x i) (operand_at y i)) result }
{
    let a = operand_at(x, i);
    let b = operand_at(y, i);
    match way {
        Way::First(f) => joined(hot, f, false, op, b.number, b.size),
        Way::Second(f) => joined(hot, f, true, op, a.number, a.size),
        Way::Neither => otherwise(op, a, b),
    }
}
