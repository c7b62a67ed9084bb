// What attributes are like: how many bits a value takes, which codes stand for one, how wide a class is, which sizes lists have. Total: any
// numbers will do.
ghost use Rattle.std.specs.Prelude.{◌≡◌, ◌*◌, ◌≤◌, get_or, set};
ghost use Rattle.format.specs.Format.{within as within_of};
ghost use Rattle.policy.specs.File.{largest as largest_of, size_fits};
ghost use Rattle.policy.specs.Policy.{fewest_bits, bits_for, codes, width};
ghost use Rattle.policy.specs.Rules.{as_attr, attrs_of};

use super::{Attribute, Class};
use bits::{get_or, high_bits};

// The greatest size of an attribute of a kind.
#[tactic(auto, unfolding(crate::specs::File::largest))]
pub fn largest(kind: u64) -> u64
    ensures value { result ≡ largest_of kind }
    ensures upper_bound { result ≤ 16 }
{
    if kind == 0 { 16 } else { 8 }
}

// The fewest bits w with 2 ^ w at least n: those of n - 1.
fn fewest_bits(n: u8) -> u8
    ensures { result ≡ fewest_bits n }
{
    (u8::BITS - n.saturating_sub(1).leading_zeros()) as u8
}

impl Attribute {
    // The bits of one value.
    #[tactic(auto, unfolding(crate::specs::Policy::bits_for))]
    pub fn bits(self) -> u8
        ensures { result ≡ bits_for (as_attr self) }
    {
        if self.kind == 0 {
            fewest_bits(self.size)
        } else {
            self.size
        }
    }

    // Whether x stands for a value.
    #[tactic(auto, unfolding(crate::specs::Policy::codes, format::specs::Format::within))]
    pub fn holds_code(self, x: u64) -> bool
        ensures { result ≡ within_of 0 (codes (as_attr self)) x }
    {
        if self.kind == 0 {
            x < self.size as u64
        } else {
            high_bits(x, self.size as usize) == 0
        }
    }
}

// The bits of a holder's value.
pub fn class_width(class: Class) -> usize
    ensures value { result ≡ width (attrs_of class) }
    ensures upper_bound { result ≤ 255 * class.count }
{
    let mut w: usize = 0;
    for k in 0..class.count as usize {
        w += class.attribute(k).bits() as usize;
    }
    w
}

// Whether an attribute of so many values may use the list, where earlier ones gave the lists these sizes.
#[tactic(auto, unfolding(crate::specs::File::size_fits))]
pub fn size_fits(sizes: &[u8], size: u8, list: u8) -> bool
    ensures { result ≡ size_fits sizes.now size list }
{
    let earlier = get_or(sizes, list as usize, 0);
    list == 0 || earlier == 0 || earlier == size
}

// The list has this size from now on. A list number past the end changes nothing.
pub fn set_size(sizes: &mut [u8], list: u8, size: u8)
    ensures { sizes.new ≡ set sizes.old list size }
{
    let k = list as usize;
    if k < sizes.len() {
        sizes[k] = size;
    }
}
