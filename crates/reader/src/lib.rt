// Reading rules, part by part in the file's order. Each part is lent the reader, which is made here and given back after the last.
#![tactic(auto)]

ghost use Rattle.std.specs.Prelude.{◌≡◌, ◌≤◌, OnErr};
ghost use Rattle.format.specs.Format.{Format};
ghost use Rattle.format.specs.Reads.{res_of, Reads};
ghost use Rattle.policy.specs.File.{policy_format};
ghost use Rattle.policy.specs.Rules.{policy_of, no_rules as no_rules_of};

mod formulas;
mod values;

use format::file_reader::FileReader;
use formulas::read_formulas;
use policy::{Rules, no_rules};
use reader_head::head::read_counts;
use reader_head::lists::read_classes;
use refusal::Refusal;
use values::{read_sessions, read_values};

// The whole file up to its filling bits, from its start. Each part is stored in its place in the rules.
fn read_parts(reader: &mut FileReader, rules: &mut Rules) -> Result<(), Refusal>
    requires { reader.old.bits.at ≡ 0 }
    ensures reads { Reads policy_format 16680 (λ _. policy_of rules.new) reader.old reader.new result }
{
    let head = read_counts(reader)?;
    let classes = read_classes(reader, head)?;
    let users = read_values(reader, classes.user, head.users)?;
    let sessions = read_sessions(reader, classes.session, head.users, head.sessions)?;
    let items = read_values(reader, classes.item, head.items)?;
    let mut lengths: [u8; 12] = [0; 12];
    let mut nodes: [u32; 768] = [0; 768];
    let formulas = 4 + head.permissions as usize;
    read_formulas(reader, classes, &mut lengths[..formulas], &mut nodes)?;
    rules.classes = classes;
    rules.users = users;
    rules.sessions = sessions;
    rules.items = items;
    rules.permissions = head.permissions;
    rules.lengths = lengths;
    rules.nodes = nodes;
    Ok(())
}

// The whole file up to its filling bits, stored in the rules; and the reader after what was read. Where the file is refused, the rules are those of no
// file.
pub fn read_policy<'a>(file: &'a [u8], rules: &mut Rules) -> (Result<(), Refusal>, FileReader<'a>)
    ensures answer { res_of (λ _. policy_of rules.new) result.0 result.1.bits.at ≡ policy_format.read file.now 0 }
    ensures refused { OnErr result.0 (rules.new ≡ no_rules_of) }
    ensures source { result.1.bits.src ≡ file.entry }
    ensures near { result.1.bits.at ≤ 16680 }
{
    let mut reader = FileReader::new(file);
    if let Err(refusal) = read_parts(&mut reader, rules) {
        *rules = no_rules();
        return (Err(refusal), reader);
    }
    (Ok(()), reader)
}
