// Writes rules whose numbers it reads from standard input, and prints for each what the writer gives: the bytes in hexadecimal, or REFUSED and the
// number. What a record holds is in src/record.rt.
#![tactic(auto)]

ghost use Rattle.std.specs.Prelude.{◌≤◌, length};

mod record;

use policy::no_rules;
use std::io;
use std::io::Read;

// So many records are answered at most.
const RECORDS: u64 = 1000000;

// A line of these bytes, at most 4,096 of them, two digits each.
fn print_bytes(rt: &impl Print, bytes: &[u8]) -> io::Result<()>
    requires { length bytes.now ≤ 4096 }
{
    let mut line = [b'\n'; 8193];
    let digits = 2 * bytes.len();
    let _ = hex::encode_to_slice(bytes, &mut line[..digits]);
    rt.write_all(&line[..digits + 1])
}

// Writes the rules of a record to as many bytes as it says, and prints what comes of it.
fn answer(rt: &impl Print, bytes: &[u8]) -> io::Result<()> {
    let mut out = [0; 4096];
    let mut rules = no_rules();
    let room = record::read(bytes, &mut rules);
    match rules::write_rules(rules, &mut out[..room]) {
        Ok(n) => print_bytes(rt, &out[..n.min(4096)]),
        Err(refusal) => println!(rt; "REFUSED {}", u8::from(refusal)),
    }
}

// Answers the next record; false at the end, also where what is left is no whole record.
fn one<R: Read>(rt: &impl Print, input: &mut R) -> io::Result<bool> {
    let mut bytes: [u8; 3293] = [0; 3293];
    let n = streams::read_full(input, &mut bytes)?;
    if n < 3293 {
        return Ok(false);
    }
    answer(rt, &bytes[..n])?;
    Ok(true)
}

fn main(rt: HostRuntime) -> io::Result<()> {
    let mut input = rt.stdin();
    for _ in 0..RECORDS {
        if !one(&rt, &mut input)? {
            return Ok(());
        }
    }
    Ok(())
}
