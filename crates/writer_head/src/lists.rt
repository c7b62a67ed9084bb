// The attributes of the three classes of holders.
ghost use Rattle.std.specs.Prelude.{◌≡◌, ◌+◌, ◌*◌, ◌^◌, ◌≤◌, ◌<◌, OnOk};
ghost use Rattle.format.specs.Format.{Format, rows};
ghost use Rattle.format.specs.Steps.{place_of, Stores};
ghost use Rattle.policy.specs.File.{sizes_after, attr_format, class_format, lists_format};
ghost use Rattle.policy.specs.Rules.{as_attr, attrs_of, lists_of};
ghost use Rattle.writer_head.specs.Parts.{head_for};

use super::put_range;
use format::{Stopped, put_field};
use policy::shape::{class_width, largest, set_size, size_fits};
use policy::{Attribute, Class, Classes};
use refusal::Refusal;

// An attribute. `known` has the sizes of the lists as the earlier attributes gave them.
fn put_attr(
    out: &mut [u8],
    at: usize,
    attribute: Attribute,
    known: &[u8],
) -> Result<usize, Stopped<Refusal>>
    requires { at < 2 ^ 39 }
    ensures stores { Stores (attr_format known.now) (as_attr attribute) out.old out.new at result }
    ensures pos_bound { place_of result ≤ at + 12 }
{
    let size = attribute.size;
    let list = attribute.list;
    let at = put_range(out, at, 1, attribute.kind, 0, 2, Refusal::Size)?;
    let at = put_range(
        out,
        at,
        5,
        size,
        1,
        largest(attribute.kind as u64) + 1,
        Refusal::Size,
    )?;
    let at = put_field(
        out,
        at,
        5,
        list as u64,
        size_fits(known, size, list),
        Refusal::ListSize,
    )?;
    put_field(out, at, 1, 0, true, Refusal::SpareBits)
}

// The attributes of a class, however wide. `known` has the sizes of the lists before them, and then those after them.
fn put_attrs(
    out: &mut [u8],
    at: usize,
    class: Class,
    known: &mut [u8],
) -> Result<usize, Stopped<Refusal>>
    requires { at < 2 ^ 38 }
    ensures stores { Stores (rows class.count (λ l. attr_format (sizes_after known.old l))) (attrs_of class) out.old out.new at result }
    ensures known_after { OnOk result (known.new ≡ sizes_after known.old (attrs_of class)) }
    ensures pos_bound { place_of result ≤ at + 12 * 255 }
{
    let count = class.count;
    let mut next = at;
    for i in 0..count as usize {
        let attribute = class.attribute(i);
        next = put_attr(out, next, attribute, known)?;
        set_size(known, attribute.list, attribute.size);
    }
    Ok(next)
}

// The attributes of a class, at most 8 bits wide. `known` as above.
fn put_class(
    out: &mut [u8],
    at: usize,
    class: Class,
    known: &mut [u8],
) -> Result<usize, Stopped<Refusal>>
    requires { at < 2 ^ 38 }
    ensures stores { Stores (class_format known.old class.count) (attrs_of class) out.old out.new at result }
    ensures known_after { OnOk result (known.new ≡ sizes_after known.old (attrs_of class)) }
    ensures pos_bound { place_of result ≤ at + 12 * 255 }
{
    let next = put_attrs(out, at, class, known)?;
    if class_width(class) <= 8 {
        Ok(next)
    } else {
        Err(Stopped {
            refusal: Refusal::Width,
            at: next,
        })
    }
}

// The attributes of all three classes.
pub fn put_classes(out: &mut [u8], at: usize, classes: Classes) -> Result<usize, Stopped<Refusal>>
    requires { at < 2 ^ 37 }
    ensures stores { Stores (lists_format (head_for classes)) (lists_of classes) out.old out.new at result }
    ensures pos_bound { place_of result ≤ at + 36 * 255 }
{
    let mut known: [u8; 32] = [0; 32];
    let at = put_class(out, at, classes.user, &mut known)?;
    let at = put_class(out, at, classes.session, &mut known)?;
    put_class(out, at, classes.item, &mut known)
}
