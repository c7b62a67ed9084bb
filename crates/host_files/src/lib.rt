// The calls on rule files for hosts: each returns 0, or paper 01's number.
#![tactic(auto)]

ghost use Rattle.std.specs.Prelude.{◌≡◌, length};
ghost use Rattle.rules.specs.Answers.{reading, bits_taken, written, written_of, filled};
ghost use Rattle.host_files.specs.Numbers.{number_of, rewritten, write_number, write_length};

use live::number_of as number_told;
use refusal::Refusal;
use rules::{read_rules, write_rules};

// Reads a rule file: 0 where it is accepted, or the file's number; `bits` becomes how many of the file's bits were taken, with a number too.
#[tactic(auto, unfolding(crate::specs::Numbers::number_of, live::specs::Lent::host_number, rules::specs::Answers::answer_of))]
pub fn read_bits(file: &[u8], bits: &mut u64) -> u32
    ensures value { result ≡ number_of (reading file.now) }
    ensures bits_after { bits.new ≡ bits_taken file.now }
{
    let parsed = read_rules(file);
    *bits = parsed.bits as u64;
    number_told(parsed.answer)
}

// Reads a rule file: 0 where it is accepted, or the file's number.
pub fn read(file: &[u8]) -> u32
    ensures { result ≡ number_of (reading file.now) }
{
    let mut bits: u64 = 0;
    read_bits(file, &mut bits)
}

// Reads a rule file and writes its rules back to the front of `out`: the length, or why the file is refused, or that `out` is too short; then
// `out` is as it was.
#[tactic(auto, unfolding(crate::specs::Numbers::rewritten, rules::specs::Answers::answer_of, rules::specs::Answers::written, rules::specs::Answers::written_of, rules::specs::Answers::filled))]
fn rewrite(file: &[u8], out: &mut [u8]) -> Result<usize, Refusal>
    ensures value { written result ≡ written_of (rewritten (reading file.now)) (length out.old) }
    ensures out_after { out.new ≡ filled (rewritten (reading file.now)) out.old }
{
    write_rules(read_rules(file).answer?, out)
}

// Reads a rule file and writes its rules back to the front of `out`: 0 and the length, or the file's number, or 11 where `out` is
// too short; then the length is 0 and `out` is as it was.
#[tactic(auto, using(crate::proofs::Laws::number_told, crate::proofs::Laws::length_told))]
pub fn write_back(file: &[u8], out: &mut [u8], size: &mut usize) -> u32
    ensures value { result ≡ write_number (rewritten (reading file.now)) (length out.old) }
    ensures size_after { size.new ≡ write_length (rewritten (reading file.now)) (length out.old) }
    ensures out_after { out.new ≡ filled (rewritten (reading file.now)) out.old }
{
    let written = rewrite(file, out);
    *size = written.unwrap_or(0);
    number_told(written)
}
