// What one node says.
ghost use Rattle.std.specs.Prelude.{◌≡◌, false, ◌+◌, ◌*◌, ◌≤◌, ◌<◌, MatchOption, get_or as element};
ghost use Rattle.policy.specs.Nodes.{op_of};
ghost use Rattle.policy.specs.Operators.{number_of_comparison};
ghost use Rattle.formulas.specs.Parts.{compared_by, joined, compared_over};

use bits::{get_or, member, proper, subset};
use policy::operators::{Comparison, Operator};

// Node i of formula f, or 0 past the end.
pub fn at(nodes: &[u32], f: usize, i: usize) -> u32
    ensures { result ≡ element nodes.now (64 * f + i) 0 }
{
    get_or(nodes, f.saturating_mul(64).saturating_add(i), 0)
}

// What a comparison says of the values x and y, whose lists have m and n values.
#[tactic(auto, unfolding(crate::specs::Parts::compared_by))]
fn holds(comparison: Comparison, x: u64, m: u64, y: u64, n: u64) -> bool
    ensures { result ≡ compared_by (number_of_comparison comparison) x m y n }
{
    match comparison {
        Comparison::Equal => x == y,
        Comparison::Less => x < y,
        Comparison::AtMost => x <= y,
        Comparison::Member => member(y, n, x),
        Comparison::Subset => subset(x, m, y, n),
        Comparison::ProperSubset => proper(x, m, y, n),
    }
}

// The same of the comparison whose operator has this number; false where there is none.
#[tactic(auto, unfolding(crate::specs::Parts::compared_by))]
pub fn compare(op: u32, x: u64, m: u64, y: u64, n: u64) -> bool
    ensures { result ≡ compared_by op x m y n }
{
    match Operator::of_number(op) {
        Some(Operator::Compare(comparison)) => holds(comparison, x, m, y, n),
        _ => false,
    }
}

// What a node that joins answers says, by those of the nodes before it. Other nodes look at operands.
#[tactic(auto, unfolding(crate::specs::Parts::joined, crate::specs::Parts::joined_by, policy::specs::Nodes::op_of, policy::specs::Nodes::first_of, policy::specs::Nodes::second_of))]
pub(super) fn joins(before: &[bool], node: u32) -> Option<bool>
    ensures { MatchOption result (5 ≤ op_of node) (λ says. (op_of node < 5) × (says ≡ joined before.now node false)) }
{
    let first = get_or(before, (node / 256 % 256) as usize, false);
    let second = get_or(before, (node % 256) as usize, false);
    match Operator::of_number(node / 65536)? {
        Operator::False => Some(false),
        Operator::True => Some(true),
        Operator::Not => Some(!first),
        Operator::And => Some(first & second),
        Operator::Or => Some(first | second),
        Operator::Compare(_) => None,
    }
}

// What a comparison says, by the values and sizes of its operands.
#[tactic(auto, unfolding(crate::specs::Parts::compared_over, policy::specs::Nodes::op_of, policy::specs::Nodes::first_of, policy::specs::Nodes::second_of))]
fn compares(values: &[u8], sizes: &[u8], node: u32) -> bool
    ensures { result ≡ compared_over values.now sizes.now node }
{
    let a = (node / 256 % 256) as usize;
    let b = (node % 256) as usize;
    compare(
        node / 65536,
        get_or(values, a, 0) as u64,
        get_or(sizes, a, 0) as u64,
        get_or(values, b, 0) as u64,
        get_or(sizes, b, 0) as u64,
    )
}

// What a node says, by the values and sizes of its operands or by what the nodes before it say.
pub(super) fn says(values: &[u8], sizes: &[u8], before: &[bool], node: u32) -> bool
    ensures { result ≡ joined before.now node (compared_over values.now sizes.now node) }
{
    match joins(before, node) {
        Some(says) => says,
        None => compares(values, sizes, node),
    }
}
