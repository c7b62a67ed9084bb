// Values of a holder in lanes: which numbers are values of a class, and where a comparison of operands holds, 64 values in a word, one bit a value.
#![tactic(auto)]

ghost use Rattle.std.specs.Prelude.{◌≡◌};
ghost use Rattle.lanes.specs.Lanes.{Lanes};
ghost use Rattle.policy.specs.Nodes.{of_holder};
ghost use Rattle.policy.specs.Rules.{attrs_of, lists_of};
ghost use Rattle.lists.specs.Lists.{listed as listed_in};

pub mod comparison;
mod listed;
pub mod operand;
mod set;
pub mod wide;
mod word;

use listed::values_word;
use policy::shape::class_width;
use policy::{Class, Classes};

// The values that a holder of the class can have.
pub fn values_of(class: Class) -> [u64; 4]
    ensures { Lanes (listed_in (attrs_of class)) result }
{
    let n = class_width(class);
    [
        values_word(class, n, 0),
        values_word(class, n, 1),
        values_word(class, n, 2),
        values_word(class, n, 3),
    ]
}

// The attributes of the holder at the place `at`.
#[tactic(auto, unfolding(policy::specs::Nodes::of_holder, policy::specs::Rules::lists_of))]
pub fn class_of(classes: Classes, at: u8) -> Class
    ensures { attrs_of result ≡ of_holder (lists_of classes) at }
{
    match at {
        0 => classes.user,
        1 | 2 => classes.session,
        _ => classes.item,
    }
}
