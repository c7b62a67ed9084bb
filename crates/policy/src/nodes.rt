// Which nodes a formula may have.
ghost use Rattle.std.specs.Prelude.{◌≡◌, ◌≤◌, ◌&&◌, ◌||◌, cond, ltb, leb, eqb, Ok, Err};
ghost use Rattle.refusal.specs.declared.Refusal.{Refusal};
ghost use Rattle.policy.specs.Nodes.{may_use, of_holder, node_ok, lists_agree};
ghost use Rattle.policy.specs.Operators.{number_of_comparison};
ghost use Rattle.policy.specs.Operands.{operand_of, is_set, list_of, share_list, takes_operands, judged_operands};
ghost use Rattle.policy.specs.Rules.{attrs_of, lists_of};

use super::operators::{Comparison, Operator};
use super::{Class, Classes};
use refusal::Refusal;

// Whether formula f may use holder h besides constants.
#[tactic(auto, unfolding(crate::specs::Nodes::may_use))]
fn may_use(f: usize, h: u32) -> bool
    ensures { result ≡ may_use f h }
{
    match f {
        0 => h == 0 || h == 2,
        1 => h <= 2,
        2 => h == 1 || h == 4,
        3 => h == 1 || h == 3 || h == 4,
        _ => h == 1 || h == 3,
    }
}

// The attributes of a holder.
#[tactic(auto, unfolding(crate::specs::Nodes::of_holder, crate::specs::Rules::lists_of))]
fn of_holder(classes: Classes, h: u32) -> Class
    ensures { attrs_of result ≡ of_holder (lists_of classes) h }
{
    match h {
        0 => classes.user,
        1..=2 => classes.session,
        _ => classes.item,
    }
}

// What an operand of a formula names: an attribute, atomic or a set, with its list number, or a constant from 0 to 15.
#[derive(Clone, Copy, Debug, PartialEq, Eq)]
pub enum Operand {
    Atomic(u8),
    Set(u8),
    Constant,
}

impl Operand {
    fn is_set(self) -> bool
        ensures { result ≡ is_set self }
    {
        matches!(self, Operand::Set(_))
    }

    // The list number of an attribute.
    fn list(self) -> Option<u8>
        ensures { result ≡ list_of self }
    {
        match self {
            Operand::Atomic(list) | Operand::Set(list) => Some(list),
            Operand::Constant => None,
        }
    }

    // Whether two attributes have the same list number; a constant fits any list.
    fn shares_list(self, other: Operand) -> bool
        ensures { result ≡ share_list self other }
    {
        match (self.list(), other.list()) {
            (Some(own), Some(others)) => own == others,
            _ => true,
        }
    }
}

// What operand x of formula f names, or nothing where it may not stand there.
fn named_by(classes: Classes, f: usize, x: u32) -> Option<Operand>
    ensures { result ≡ operand_of (lists_of classes) f x }
{
    let h = x / 32;
    let k = (x % 32) as usize;
    if h == 5 {
        return if k < 16 {
            Some(Operand::Constant)
        } else {
            None
        };
    }
    let class = of_holder(classes, h);
    if !may_use(f, h) || class.count as usize <= k {
        return None;
    }
    let attribute = class.attribute(k);
    match attribute.kind {
        0 => Some(Operand::Atomic(attribute.list)),
        1 => Some(Operand::Set(attribute.list)),
        _ => None,
    }
}

// Whether a node may compare such operands.
fn takes_operands(comparison: Comparison, first: Operand, second: Operand) -> bool
    ensures { result ≡ takes_operands (number_of_comparison comparison) first second }
{
    match comparison {
        Comparison::Equal | Comparison::Less | Comparison::AtMost => !first.is_set()
            && !second.is_set(),
        Comparison::Member => !first.is_set() && second.is_set(),
        Comparison::Subset | Comparison::ProperSubset => first.is_set() && second.is_set(),
    }
}

// What is wrong where node i compares the operands a and b of formula f.
fn check_operands(
    classes: Classes,
    f: usize,
    comparison: Comparison,
    a: u32,
    b: u32,
) -> Result<(), Refusal>
    ensures { result ≡ judged_operands (number_of_comparison comparison) (operand_of (lists_of classes) f a) (operand_of (lists_of classes) f b) }
{
    let first = named_by(classes, f, a).ok_or(Refusal::Node)?;
    let second = named_by(classes, f, b).ok_or(Refusal::Node)?;
    if !takes_operands(comparison, first, second) {
        return Err(Refusal::Node);
    }
    if first.shares_list(second) {
        Ok(())
    } else {
        Err(Refusal::Lists)
    }
}

// Refuses a node that doesn't fit.
fn fitting(fits: bool) -> Result<(), Refusal>
    ensures { result ≡ cond fits (Ok tt) (Err Refusal.Node) }
{
    if fits { Ok(()) } else { Err(Refusal::Node) }
}

// Whether x may be node i of formula f. It may not be any where it doesn't fit, and it may not compare attributes of different lists.
pub fn check_node(classes: Classes, f: usize, i: usize, x: u32) -> Result<(), Refusal>
    ensures { result ≡ cond (node_ok (lists_of classes) f i x) (cond (lists_agree (lists_of classes) x) (Ok tt) (Err Refusal.Lists))
        (Err Refusal.Node) }
{
    let a = x / 256 % 256;
    let b = x % 256;
    match Operator::of_number(x / 65536) {
        Some(Operator::False | Operator::True) => fitting(a == 0 && b == 0),
        Some(Operator::Not) => fitting((a as usize) < i && b == 0),
        Some(Operator::And | Operator::Or) => fitting((a as usize) < i && (b as usize) < i),
        Some(Operator::Compare(comparison)) => check_operands(classes, f, comparison, a, b),
        None => Err(Refusal::Node),
    }
}
