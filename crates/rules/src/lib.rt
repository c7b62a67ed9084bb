// Rule files: rules are read from bytes, or refused by the first fault in reading order; and rules are written to bytes, or refused as
// reading them would be.
#![tactic(auto)]

ghost use Rattle.std.specs.Prelude.{◌≡◌, ◌*◌, ◌≤◌, eqb, length};
ghost use Rattle.format.specs.Format.{Format};
ghost use Rattle.format.specs.File.{bytes, read_file};
ghost use Rattle.format.specs.Reads.{res_of};
ghost use Rattle.policy.specs.File.{policy_format};
ghost use Rattle.policy.specs.Rules.{policy_of};
ghost use Rattle.rules.specs.Answers.{answer_of, reading, bits_taken, writing, written, written_of, filled};

use format::file_reader::FileReader;
use policy::{Rules, no_rules};
use reader::read_policy;
use refusal::Refusal;

// The rules of a file, or why it is refused; and how many bits of the file were taken.
#[derive(Clone, Copy)]
pub struct Parsed {
    pub answer: Result<Rules, Refusal>,
    pub bits: usize,
}

// Whether the reader stands at the end of the bits.
fn at_end(reader: &FileReader) -> bool
    ensures { result ≡ eqb reader.now.bits.at (8 * length reader.now.bits.src.now) }
{
    let at = reader.position();
    at % 8 == 0 && at / 8 == reader.bits.src.len()
}

// The rules, which were read up to the reader's place, if the filling bits follow and nothing after them.
fn read_end(
    reader: &mut FileReader,
    read: Result<(), Refusal>,
    rules: &Rules,
) -> Result<Rules, Refusal>
    requires read { res_of (λ _. policy_of rules.now) read reader.old.bits.at ≡ policy_format.read reader.old.bits.src.now 0 }
    requires near { reader.old.bits.at ≤ 16680 }
    ensures { res_of policy_of result reader.new.bits.at ≡ read_file policy_format reader.old.bits.src.now }
{
    read?;
    let fill = (8 - reader.position() % 8) % 8;
    reader.field(fill, 0, 1, Refusal::SpareBits)?;
    if !at_end(reader) {
        return Err(Refusal::SpareBits);
    }
    Ok(*rules)
}

// Reads a file: its rules, or the first refusal in reading order; and how many bits were taken: with the rules or where it ends early all bits of
// the file, with another refusal those up to and including the field that was judged.
pub fn read_rules(file: &[u8]) -> Parsed
    ensures answer { answer_of result.answer ≡ reading file.now }
    ensures bits { result.bits ≡ bits_taken file.now }
{
    let mut rules = no_rules();
    let (read, mut reader) = read_policy(file, &mut rules);
    let answer = read_end(&mut reader, read, &rules);
    let bits = reader.taken();
    Parsed { answer, bits }
}

// The bytes `front` are put in place of the first of `out`, and their length is returned; or `Room` where `out` is too short, with `out` as it was.
fn copy_front(out: &mut [u8], front: &[u8]) -> Result<usize, Refusal>
    ensures value { written result ≡ written_of (bytes front.now) (length out.old) }
    ensures out_after { out.new ≡ filled (bytes front.now) out.old }
{
    let n = front.len();
    if out.len() < n {
        return Err(Refusal::Room);
    }
    out[..n].copy_from_slice(front);
    Ok(n)
}

// Writes rules to the front of `out`, leaves the rest, and returns the length; or the refusal that reading them would give, or `Room` where
// `out` is too short, with `out` as it was. Any numbers may stand in `rules`: none is cut down to fit.
pub fn write_rules(rules: Rules, out: &mut [u8]) -> Result<usize, Refusal>
    ensures value { written result ≡ written_of (writing (policy_of rules)) (length out.old) }
    ensures out_after { out.new ≡ filled (writing (policy_of rules)) out.old }
{
    // The file is made in as many bytes as the largest one has. `out` is written when it is known that all can be.
    let mut file: [u8; 2069] = [0; 2069];
    let end = writer::put_policy(&mut file, rules)?;
    copy_front(out, &file[..end.div_ceil(8)])
}
