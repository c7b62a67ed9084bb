// The values of holders, and the starting sessions.
ghost use Rattle.std.specs.Prelude.{◌≡◌, ◌^◌, ◌≤◌, ◌<◌, IfOk};
ghost use Rattle.format.specs.Format.{rows};
ghost use Rattle.format.specs.Reads.{Reads};
ghost use Rattle.policy.specs.File.{value_format, session_format};
ghost use Rattle.policy.specs.Rules.{attrs_of, values_of, as_session, sessions_of};
ghost use Rattle.reader_head.specs.Parts.{Narrow};

use format::file_reader::FileReader;
use policy::{Class, Session, Sessions, Values};
use refusal::Refusal;

// A holder's value: its attributes' values side by side. The format's last field, of no bits, is there wherever the place is within the bytes.
fn read_value(reader: &mut FileReader, class: Class) -> Result<u8, Refusal>
    requires { (reader.old.bits.at < 2 ^ 38) × Narrow class }
    ensures reads { Reads (value_format (attrs_of class)) 8 (λ x. x) reader.old reader.new result }
{
    let mut value: u64 = 0;
    for i in 0..class.count as usize {
        let attribute = class.attribute(i);
        let w = attribute.bits();
        let x = reader.take(w as usize)?;
        if !attribute.holds_code(x) {
            return Err(Refusal::Code);
        }
        value = (value << w) + x;
    }
    Ok(value as u8)
}

// The values of n holders of a class.
pub(super) fn read_values(reader: &mut FileReader, class: Class, n: u8) -> Result<Values, Refusal>
    requires { (n ≤ 32) × (reader.old.bits.at < 2 ^ 37) × Narrow class }
    ensures reads { Reads (rows n (λ _. value_format (attrs_of class))) 256 values_of reader.old reader.new result }
    ensures all { IfOk result (λ values. values.count ≡ n) }
{
    let mut values: [u8; 32] = [0; 32];
    for value in &mut values[..n as usize] {
        *value = read_value(reader, class)?;
    }
    Ok(Values { count: n, values })
}

// A starting session: its user, one of so many, and its value.
fn read_session(reader: &mut FileReader, class: Class, users: u8) -> Result<Session, Refusal>
    requires { (reader.old.bits.at < 2 ^ 37) × Narrow class }
    ensures reads { Reads (session_format users (attrs_of class)) 12 as_session reader.old reader.new result }
{
    let user = reader.field(4, 0, users as u64, Refusal::User)? as u8;
    let value = read_value(reader, class)?;
    Ok(Session { user, value })
}

// The n starting sessions.
pub(super) fn read_sessions(
    reader: &mut FileReader,
    class: Class,
    user_count: u8,
    n: u8,
) -> Result<Sessions, Refusal>
    requires { (n ≤ 32) × (reader.old.bits.at < 2 ^ 36) × Narrow class }
    ensures reads { Reads (rows n (λ _. session_format user_count (attrs_of class))) 384 sessions_of reader.old reader.new result }
    ensures all { IfOk result (λ sessions. sessions.count ≡ n) }
{
    let mut sessions = [Session::NONE; 32];
    for session in &mut sessions[..n as usize] {
        *session = read_session(reader, class, user_count)?;
    }
    Ok(Sessions { count: n, sessions })
}
