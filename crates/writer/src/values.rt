// The values of holders, and the starting sessions.
ghost use Rattle.std.specs.Prelude.{◌≡◌, ◌+◌, ◌*◌, ◌^◌, ◌≤◌, ◌<◌};
ghost use Rattle.format.specs.Format.{Format, rows};
ghost use Rattle.format.specs.Steps.{place_of, Stores};
ghost use Rattle.policy.specs.Policy.{width as width_of};
ghost use Rattle.policy.specs.File.{value_format, session_format};
ghost use Rattle.policy.specs.Rules.{attrs_of, values_of, as_session, sessions_of};

use bits::{high_bits, low_bits};
use format::{Stopped, put_field};
use policy::shape::class_width;
use policy::{Class, Session, Sessions, Values};
use refusal::Refusal;
use writer_head::put_range;

// A holder's value: its attributes' values one after another, `width` bits in all. What is left above the first attribute's codes is judged with
// it, and with no attribute only 0 is a value.
fn put_value(
    out: &mut [u8],
    at: usize,
    class: Class,
    width: usize,
    v: u8,
) -> Result<usize, Stopped<Refusal>>
    requires { (at < 2 ^ 38) × (width ≡ width_of (attrs_of class)) }
    ensures stores { Stores (value_format (attrs_of class)) v out.old out.new at result }
    ensures pos_bound { place_of result ≤ at + 65025 }
{
    let count = class.count;
    let mut rest = width;
    let mut x = v as u64;
    let mut next = at;
    for i in 0..count as usize {
        let attribute = class.attribute(i);
        let w = attribute.bits();
        rest -= w as usize;
        let y = high_bits(x, rest);
        x = low_bits(x, rest);
        next = put_field(out, next, w, y, attribute.holds_code(y), Refusal::Code)?;
    }
    put_field(out, next, 0, x, true, Refusal::Code)
}

// The values of holders of a class.
pub(super) fn put_values(
    out: &mut [u8],
    at: usize,
    class: Class,
    values: Values,
) -> Result<usize, Stopped<Refusal>>
    requires { at < 2 ^ 36 }
    ensures stores { Stores (rows values.count (λ _. value_format (attrs_of class))) (values_of values) out.old out.new at result }
    ensures pos_bound { place_of result ≤ at + 65025 * 255 }
{
    let width = class_width(class);
    let count = values.count;
    let mut next = at;
    for i in 0..count as usize {
        let value = values.value(i);
        next = put_value(out, next, class, width, value)?;
    }
    Ok(next)
}

// A starting session: its user, one of so many, and its value, which takes `width` bits.
fn put_session(
    out: &mut [u8],
    at: usize,
    class: Class,
    width: usize,
    users: u8,
    session: Session,
) -> Result<usize, Stopped<Refusal>>
    requires { (at < 2 ^ 37) × (width ≡ width_of (attrs_of class)) }
    ensures stores { Stores (session_format users (attrs_of class)) (as_session session) out.old out.new at result }
    ensures pos_bound { place_of result ≤ at + 65029 }
{
    let at = put_range(out, at, 4, session.user, 0, users as u64, Refusal::User)?;
    put_value(out, at, class, width, session.value)
}

// The starting sessions.
pub(super) fn put_sessions(
    out: &mut [u8],
    at: usize,
    class: Class,
    users: u8,
    sessions: Sessions,
) -> Result<usize, Stopped<Refusal>>
    requires { at < 2 ^ 36 }
    ensures stores { Stores (rows sessions.count (λ _. session_format users (attrs_of class))) (sessions_of sessions) out.old out.new at result }
    ensures pos_bound { place_of result ≤ at + 65029 * 255 }
{
    let width = class_width(class);
    let count = sessions.count;
    let mut next = at;
    for i in 0..count as usize {
        next = put_session(out, next, class, width, users, sessions.session(i))?;
    }
    Ok(next)
}
