// Which values are in the lists of a class of holders.
#![tactic(auto)]

ghost use Rattle.std.specs.Prelude.{◌≡◌};
ghost use Rattle.policy.specs.Rules.{attrs_of};
ghost use Rattle.lists.specs.Lists.{in_lists, listed as listed_in};

use bits::{high_bits, low_bits};
use policy::Class;
use policy::shape::class_width;

// Whether v is made of a code of each attribute: the first attribute stands leftmost.
fn in_lists(class: Class, v: u64) -> bool
    ensures { result ≡ in_lists (attrs_of class) v }
{
    let mut left = class_width(class);
    let mut rest = v;
    for k in 0..class.count as usize {
        let attribute = class.attribute(k);
        left -= attribute.bits() as usize;
        if !attribute.holds_code(high_bits(rest, left)) {
            return false;
        }
        rest = low_bits(rest, left);
    }
    rest == 0
}

// Whether a holder of the class can have the value v.
#[tactic(auto, unfolding(crate::specs::Lists::listed))]
pub fn listed(class: Class, v: u64) -> bool
    ensures { result ≡ listed_in (attrs_of class) v }
{
    v < 256 && in_lists(class, v)
}
