// The formulas.
ghost use Rattle.std.specs.Prelude.{◌≡◌, ◌+◌, ◌*◌, ◌^◌, ◌≤◌, ◌<◌, length};
ghost use Rattle.format.specs.Format.{Format, rows};
ghost use Rattle.format.specs.Steps.{place_of, Stores};
ghost use Rattle.policy.specs.File.{node_format, formula_format};
ghost use Rattle.policy.specs.Rules.{lists_of, nodes_of, formulas_of};

use bits::get_or;
use format::{Stopped, put_field};
use policy::Classes;
use policy::nodes::check_node;
use refusal::Refusal;
use writer_head::put_range;

// Node i of formula f.
fn put_node(
    out: &mut [u8],
    at: usize,
    classes: Classes,
    f: usize,
    i: usize,
    x: u32,
) -> Result<usize, Stopped<Refusal>>
    requires { at < 2 ^ 39 }
    ensures stores { Stores (node_format (lists_of classes) f i) x out.old out.new at result }
    ensures pos_bound { place_of result ≤ at + 20 }
{
    let checked = check_node(classes, f, i, x);
    let next = put_field(
        out,
        at,
        20,
        x as u64,
        checked != Err(Refusal::Node),
        Refusal::Node,
    )?;
    match checked {
        Ok(()) => Ok(next),
        Err(refusal) => Err(Stopped { refusal, at: next }),
    }
}

// The n nodes of formula f.
fn put_nodes(
    out: &mut [u8],
    at: usize,
    classes: Classes,
    f: usize,
    n: u8,
    nodes: &[u32],
) -> Result<usize, Stopped<Refusal>>
    requires { (f < 512) × (at < 2 ^ 38) }
    ensures stores { Stores (rows n (λ l. node_format (lists_of classes) f (length l))) (nodes_of nodes.now f n) out.old out.new at result }
    ensures pos_bound { place_of result ≤ at + 20 * 255 }
{
    let mut next = at;
    for i in 0..n as usize {
        let x = get_or(nodes, 64 * f + i, 0);
        next = put_node(out, next, classes, f, i, x)?;
    }
    Ok(next)
}

// Formula f: a count of nodes, then the nodes.
fn put_formula(
    out: &mut [u8],
    at: usize,
    classes: Classes,
    f: usize,
    n: u8,
    nodes: &[u32],
) -> Result<usize, Stopped<Refusal>>
    requires { (f < 512) × (at < 2 ^ 37) }
    ensures stores { Stores (formula_format (lists_of classes) f) (nodes_of nodes.now f n) out.old out.new at result }
    ensures pos_bound { place_of result ≤ at + 5108 }
{
    let at = put_range(out, at, 8, n, 1, 65, Refusal::Node)?;
    put_nodes(out, at, classes, f, n, nodes)
}

// The formulas: four, and one for each permission.
pub(super) fn put_formulas(
    out: &mut [u8],
    at: usize,
    classes: Classes,
    permissions: u8,
    lengths: &[u8],
    nodes: &[u32],
) -> Result<usize, Stopped<Refusal>>
    requires { at < 2 ^ 36 }
    ensures stores { Stores (rows (4 + permissions) (λ l. formula_format (lists_of classes) (length l))) (formulas_of nodes.now lengths.now (4 + permissions)) out.old out.new at result }
    ensures pos_bound { place_of result ≤ at + 5108 * 259 }
{
    let mut next = at;
    for f in 0..4 + permissions as usize {
        let n = get_or(lengths, f, 0);
        next = put_formula(out, next, classes, f, n, nodes)?;
    }
    Ok(next)
}
