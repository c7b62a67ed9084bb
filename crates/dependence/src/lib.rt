// Which nodes of a formula depend on a holder.
#![tactic(auto)]

ghost use Rattle.std.specs.Prelude.{◌≡◌, false, ◌&&◌, ◌+◌, ◌*◌, ◌≤◌, ltb, length, get_or};
ghost use Rattle.dependence.specs.Depends.{depends_at, Depends};

// Whether node j stands before node k and depends on the holder.
fn before(d: &[bool], j: usize, k: usize) -> bool
    requires { k ≤ length d.now }
    ensures { result ≡ ltb j k && get_or d.now j false }
{
    j < k && d[j]
}

// Whether node k depends on holder h, where that is known of the nodes before it.
#[tactic(auto, unfolding(crate::specs::Depends::depends_at, policy::specs::Nodes::op_of, policy::specs::Nodes::first_of, policy::specs::Nodes::second_of, policy::specs::Nodes::holder_of))]
fn depends_at(d: &[bool], node: u32, k: usize, h: u32) -> bool
    requires { k ≤ length d.now }
    ensures { result ≡ depends_at (λ j. get_or d.now j false) node k h }
{
    let a = node / 256 % 256;
    let b = node % 256;
    match node / 65536 {
        0 | 1 => false,
        2 => before(d, a as usize, k),
        3 | 4 => before(d, a as usize, k) || before(d, b as usize, k),
        _ => a / 32 == h || b / 32 == h,
    }
}

// Which of the n nodes of formula f depend on holder h.
pub fn depends(nodes: &[u32], f: usize, n: usize, h: u32, d: &mut [bool])
    requires { n ≤ length d.old }
    ensures depends { Depends (λ k. get_or nodes.now (64 * f + k) 0) h n d.new }
    ensures d_len_unchanged { length d.new ≡ length d.old }
{
    for k in 0..n {
        let x = depends_at(d, formulas::node::at(nodes, f, k), k, h);
        d[k] = x;
    }
}
