// The formulas.
ghost use Rattle.std.specs.Prelude.{◌≡◌, ◌+◌, ◌^◌, ◌≤◌, ◌<◌, length};
ghost use Rattle.format.specs.Format.{rows};
ghost use Rattle.format.specs.Reads.{Reads};
ghost use Rattle.policy.specs.File.{node_format, formula_format};
ghost use Rattle.policy.specs.Rules.{lists_of, formulas_of};

use format::file_reader::FileReader;
use policy::Classes;
use policy::nodes::check_node;
use refusal::Refusal;

// Node i of formula f.
fn read_node(reader: &mut FileReader, classes: Classes, f: usize, i: usize) -> Result<u32, Refusal>
    requires { reader.old.bits.at < 2 ^ 39 }
    ensures reads { Reads (node_format (lists_of classes) f i) 20 (λ x. x) reader.old reader.new result }
{
    let node = reader.take(20)? as u32;
    check_node(classes, f, i, node)?;
    Ok(node)
}

// The nodes of formula f, as many as there are places for them.
fn read_nodes(
    reader: &mut FileReader,
    classes: Classes,
    f: usize,
    nodes: &mut [u32],
) -> Result<(), Refusal>
    requires { (length nodes.old ≤ 64) × (reader.old.bits.at < 2 ^ 37) }
    ensures reads { Reads (rows (length nodes.old) (λ l. node_format (lists_of classes) f (length l))) 1280 (λ _. nodes.new) reader.old reader.new result }
{
    for (i, node) in nodes.iter_mut().enumerate() {
        *node = read_node(reader, classes, f, i)?;
    }
    Ok(())
}

// The formulas, as many as there are places for their lengths; formula f has 64 places for its nodes.
pub(super) fn read_formulas(
    reader: &mut FileReader,
    classes: Classes,
    lengths: &mut [u8],
    nodes: &mut [u32],
) -> Result<(), Refusal>
    requires { (length lengths.old ≤ 12) × (length nodes.old ≡ 768) × (reader.old.bits.at < 2 ^ 36) }
    ensures reads { Reads (rows (length lengths.old) (λ l. formula_format (lists_of classes) (length l))) 15456 (λ _. formulas_of nodes.new lengths.new (length lengths.old)) reader.old reader.new result }
{
    for (f, length) in lengths.iter_mut().enumerate() {
        let n = reader.field(8, 1, 65, Refusal::Node)?;
        read_nodes(reader, classes, f, &mut nodes[64 * f..64 * f + n as usize])?;
        *length = n as u8;
    }
    Ok(())
}
