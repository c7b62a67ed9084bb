// What a formula says of the values that its holders have.
#![tactic(auto)]

ghost use Rattle.std.specs.Prelude.{◌≡◌, ◌≤◌};
ghost use Rattle.policy.specs.Rules.{lists_of, nodes_of};
ghost use Rattle.formulas.specs.Meaning.{holds as holds_of};
ghost use Rattle.formulas.specs.Parts.{Said};

pub mod node;
pub mod table;

use policy::Classes;

// The packed values of the holders that a formula can look at.
#[derive(Clone, Copy)]
pub struct Holders {
    pub user: u8,
    pub session: u8,
    pub newsession: u8,
    pub item: u8,
    pub newitem: u8,
}

impl Holders {
    // Every value is 0.
    pub const NONE: Holders = Holders {
        user: 0,
        session: 0,
        newsession: 0,
        item: 0,
        newitem: 0,
    };
}

// What formula f says from node k on, where the answers of the first k nodes are known. The value of every operand is worked out once.
fn rest(
    classes: Classes,
    holders: Holders,
    nodes: &[u32],
    f: usize,
    n: u8,
    k: usize,
    answers: [bool; 256],
    newest: bool,
) -> bool
    requires { (k ≤ n) × Said (lists_of classes) holders (nodes_of nodes.now f n) k answers newest }
    ensures { result ≡ holds_of (lists_of classes) holders (nodes_of nodes.now f n) }
{
    let mut values: [u8; 256] = [0; 256];
    let mut sizes: [u8; 256] = [0; 256];
    table::fill_all(&mut values, &mut sizes, classes, holders);
    let mut before = answers;
    let mut last = newest;
    for i in k..n as usize {
        last = node::says(&values, &sizes, &before, node::at(nodes, f, i));
        before[i] = last;
    }
    last
}

// What formula f says, its n nodes standing among the lent ones as in rules. The nodes are gone through in order, and the values of the
// operands are worked out where a node first asks for them.
pub fn holds(classes: Classes, holders: Holders, nodes: &[u32], f: usize, n: u8) -> bool
    ensures { result ≡ holds_of (lists_of classes) holders (nodes_of nodes.now f n) }
{
    let mut before: [bool; 256] = [false; 256];
    let mut last = false;
    for i in 0..n as usize {
        let node = node::at(nodes, f, i);
        let Some(says) = node::joins(&before, node) else {
            return rest(classes, holders, nodes, f, n, i, before, last);
        };
        last = says;
        before[i] = last;
    }
    last
}
