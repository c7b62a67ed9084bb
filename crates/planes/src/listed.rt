// Which numbers of 64 lanes are values of a class.
ghost use Rattle.std.specs.Prelude.{◌≡◌, ◌/◌, ◌%◌, ◌^◌, ◌<◌, ltb, eqb};
ghost use Rattle.policy.specs.Policy.{bits_for, codes, width};
ghost use Rattle.policy.specs.Rules.{as_attr, attrs_of};
ghost use Rattle.lists.specs.Lists.{listed};
ghost use Rattle.planes.specs.Word.{Word, Told};

use super::operand::{Operand, order};
use super::word::planes_of;
use bits::get_or;
use formulas::table::byte_of;
use policy::{Attribute, Class};

// Where the bits of an attribute's value, which stand left of so many others, are a code of it.
fn coded(planes: &[u64; 8], attribute: Attribute, right: usize, own: u8) -> u64
    requires { own ≡ bits_for (as_attr attribute) }
    ensures { Told planes.now (λ v. ltb (v / 2 ^ right % 2 ^ own) (codes (as_attr attribute))) result }
{
    if attribute.kind != 0 {
        return u64::MAX;
    }
    if own < 8 {
        if attribute.size == 1u8 << own {
            return u64::MAX;
        }
    }
    let field = Operand {
        shift: byte_of(right),
        bits: own,
        number: 0,
        size: 0,
    };
    order(planes, field, Operand::constant(attribute.size, 0)).below
}

// Where the number has no bit from bit n on.
fn narrow(planes: &[u64; 8], n: usize) -> u64
    ensures { Told planes.now (λ v. eqb (v / 2 ^ n) 0) result }
{
    let mut r = u64::MAX;
    for k in (n..8).rev() {
        r &= !get_or(planes, k, 0);
    }
    r
}

// Where the number is a value of a holder of the class.
fn listed_word(class: Class, w: usize) -> u64
    requires { w < 4 }
    ensures { Word (listed (attrs_of class)) w result }
{
    let planes = planes_of(w);
    let mut r = u64::MAX;
    let mut right: usize = 0;
    for k in (0..class.count as usize).rev() {
        let attribute = class.attribute(k);
        let own = attribute.bits();
        r &= coded(&planes, attribute, right, own);
        right += own as usize;
    }
    narrow(&planes, right) & r
}

// The same, by the width n of the class. A word that begins past the last number of n bits is not looked at.
pub(super) fn values_word(class: Class, n: usize, w: usize) -> u64
    requires w_bound { w < 4 }
    requires n_value { n ≡ width (attrs_of class) }
    ensures { Word (listed (attrs_of class)) w result }
{
    if n < 8 {
        if 1usize << n <= 64 * w {
            return 0;
        }
    }
    listed_word(class, w)
}
