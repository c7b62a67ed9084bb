// The number that each operand stands for, and the size of its list, for all 256 operands: 32 places for each of eight holders, the first
// five of which have attributes, the sixth the constants, and the last two nothing.
ghost use Rattle.std.specs.Prelude.{◌≡◌, cond, ◌+◌, ◌*◌, ◌%◌, ◌^◌, ◌≤◌, ◌<◌, min, eqb, length, replicate};
ghost use Rattle.bits.specs.Packed.{tab};
ghost use Rattle.policy.specs.Policy.{bits_for};
ghost use Rattle.policy.specs.Rules.{as_attr, attrs_of, lists_of};
ghost use Rattle.formulas.specs.Value.{operand, size_of_operand, attr_of, part_of};
ghost use Rattle.formulas.specs.Parts.{placed, Filling};

use super::Holders;
use bits::low_bits;
use policy::{Attribute, Class, Classes};

// The bits of one value of an attribute, at most 8.
fn bits_of(attribute: Attribute) -> u8
    ensures { result ≡ min (bits_for (as_attr attribute)) 8 }
{
    attribute.bits().min(8)
}

// The last bits of v, so many as bits says.
fn last(v: u64, bits: u8) -> u8
    requires { (v ≤ 255) × (bits ≤ 8) }
    ensures { result ≡ v % 2 ^ bits }
{
    low_bits(v, bits as usize) as u8
}

// x and y are stored at place k of the holders g and h.
pub fn place(table: &mut [u8], g: usize, h: usize, k: usize, x: u8, y: u8)
    requires { (g ≤ h) × (k < 32) × (32 * h + 32 ≤ length table.old) }
    ensures { table.new ≡ placed table.old g h k x y }
{
    table[32 * g + k] = x;
    table[32 * h + k] = y;
}

// The constants are stored at their places.
fn constants(table: &mut [u8])
    requires { 192 ≤ length table.old }
    ensures { Filling (λ i k. k) 5 5 0 table.old table.new }
{
    for k in (0..32u8).rev() {
        place(table, 5, 5, k as usize, k, k);
    }
}

// The attributes' parts of v and of w are stored at the places of the holders g and h, and the sizes of their lists, the last attribute
// first: x and y are what is left of v and w. A class has room for 8 attributes. The holders are the same, or h is the one after g.
fn fill(values: &mut [u8], sizes: &mut [u8], g: usize, h: usize, class: Class, v: u8, w: u8)
    requires { (g ≤ h) × (h ≤ g + 1) × (32 * h + 32 ≤ length values.old) × (32 * h + 32 ≤ length sizes.old) }
    ensures filling { Filling (λ i k. part_of (attrs_of class) k (cond (eqb i h) w v)) g h 0 values.old values.new }
    ensures filling_2 { Filling (λ i k. (attr_of (attrs_of class) k).size) g h 0 sizes.old sizes.new }
{
    let mut x = v as u64;
    let mut y = w as u64;
    for k in (0..byte_of(class.count as usize) as usize).rev() {
        let attribute = class.attribute(k);
        let bits = bits_of(attribute);
        place(values, g, h, k, last(x, bits), last(y, bits));
        place(sizes, g, h, k, attribute.size, attribute.size);
        x >>= bits;
        y >>= bits;
    }
}

// The least of n and 8.
pub fn byte_of(n: usize) -> u8
    ensures { result ≡ min n 8 }
{
    n.min(8) as u8
}

// The values and sizes of all operands are stored.
pub(super) fn fill_all(values: &mut [u8], sizes: &mut [u8], classes: Classes, holders: Holders)
    requires { (values.old ≡ replicate 256 0) × (sizes.old ≡ replicate 256 0) }
    ensures values_after { values.new ≡ tab (operand (lists_of classes) holders) 0 256 }
    ensures sizes_after { sizes.new ≡ tab (size_of_operand (lists_of classes)) 0 256 }
{
    let user = classes.user;
    let session = classes.session;
    let item = classes.item;
    fill(values, sizes, 0, 0, user, holders.user, holders.user);
    fill(
        values,
        sizes,
        1,
        2,
        session,
        holders.session,
        holders.newsession,
    );
    fill(values, sizes, 3, 4, item, holders.item, holders.newitem);
    constants(values);
}
