// The attributes of the three classes of holders.
ghost use Rattle.std.specs.Prelude.{◌≡◌, ◌^◌, ◌≤◌, ◌<◌, IfOk};
ghost use Rattle.format.specs.Format.{rows};
ghost use Rattle.format.specs.Reads.{Reads};
ghost use Rattle.policy.specs.File.{sizes_after, attr_format, class_format, lists_format};
ghost use Rattle.policy.specs.Rules.{as_attr, attrs_of, lists_of};
ghost use Rattle.reader_head.specs.Parts.{head_of, Narrow, AllNarrow};

use super::Counts;
use format::file_reader::FileReader;
use policy::shape::{class_width, largest, set_size, size_fits};
use policy::{Attribute, Class, Classes};
use refusal::Refusal;

// An attribute. `known` has the sizes of the lists as the earlier attributes gave them.
fn read_attr(reader: &mut FileReader, known: &[u8]) -> Result<Attribute, Refusal>
    requires { reader.old.bits.at < 2 ^ 39 }
    ensures reads { Reads (attr_format known.now) 12 as_attr reader.old reader.new result }
{
    let kind = reader.field(1, 0, 2, Refusal::Size)?;
    let size = reader.field(5, 1, largest(kind) + 1, Refusal::Size)? as u8;
    let list = reader.take(5)? as u8;
    if !size_fits(known, size, list) {
        return Err(Refusal::ListSize);
    }
    reader.field(1, 0, 1, Refusal::SpareBits)?;
    Ok(Attribute {
        kind: kind as u8,
        size,
        list,
    })
}

// The n attributes of a class, however wide. `known` has the sizes of the lists before them, and then those after them.
fn read_attrs(reader: &mut FileReader, n: u8, known: &mut [u8]) -> Result<Class, Refusal>
    requires { (n ≤ 8) × (reader.old.bits.at < 2 ^ 38) }
    ensures reads { Reads (rows n (λ l. attr_format (sizes_after known.old l))) 96 attrs_of reader.old reader.new result }
    ensures known_after { IfOk result (λ class. known.new ≡ sizes_after known.old (attrs_of class)) }
    ensures all { IfOk result (λ class. class.count ≡ n) }
{
    let mut attributes = [Attribute::NONE; 8];
    for i in 0..n as usize {
        let attribute = read_attr(reader, known)?;
        attributes[i] = attribute;
        set_size(known, attribute.list, attribute.size);
    }
    Ok(Class {
        count: n,
        attributes,
    })
}

// The n attributes of a class, at most 8 bits wide. `known` has the sizes of the lists before them, and then those after them.
fn read_class(reader: &mut FileReader, n: u8, known: &mut [u8]) -> Result<Class, Refusal>
    requires { (n ≤ 8) × (reader.old.bits.at < 2 ^ 38) }
    ensures reads { Reads (class_format known.old n) 96 attrs_of reader.old reader.new result }
    ensures known_after { IfOk result (λ class. known.new ≡ sizes_after known.old (attrs_of class)) }
    ensures narrow { IfOk result Narrow }
{
    let class = read_attrs(reader, n, known)?;
    if class_width(class) > 8 {
        return Err(Refusal::Width);
    }
    Ok(class)
}

// The attributes of all three classes, as many as the head says.
pub fn read_classes(reader: &mut FileReader, head: Counts) -> Result<Classes, Refusal>
    requires { reader.old.bits.at < 2 ^ 37 }
    ensures reads { Reads (lists_format (head_of head)) 288 lists_of reader.old reader.new result }
    ensures all_narrow { IfOk result AllNarrow }
{
    let mut known: [u8; 32] = [0; 32];
    let user = read_class(reader, head.user, &mut known)?;
    let session = read_class(reader, head.session, &mut known)?;
    let item = read_class(reader, head.item, &mut known)?;
    Ok(Classes {
        user,
        session,
        item,
    })
}
