// Runs the stored cases of tests/vectors/rules.txt, which make.py has turned into records on standard input, and prints each answer:
// `refused n`, or `ok length` and whether the bytes written are the right ones and all others are as they were. Of a file, how many bits were taken
// stands first; and where it is accepted, `read,` stands before what writing its rules back gives.
#![tactic(auto)]

ghost use Rattle.std.specs.Prelude.{◌≤◌, ◌<◌, length, IfOk};

mod change;

use bits::get_or;
use policy::{Rules, no_rules};
use refusal::Refusal;
use std::io;

// What the bytes that are written to hold before.
const BEFORE: u8 = 170;

// Byte i, or 0 past the end.
fn byte(s: &[u8], i: usize) -> usize
    ensures { result < 256 }
{
    get_or(s, i, 0) as usize
}

// The number of two bytes from byte i on.
fn word(s: &[u8], i: usize) -> usize
    requires { i < 1000000 }
    ensures { result < 65536 }
{
    byte(s, i) * 256 + byte(s, i + 1)
}

// n bytes from byte i on, or none where they are not all there.
fn part(s: &[u8], i: usize, n: usize) -> &[u8]
    requires { (i < 1000000) × (n < 65536) }
{
    s.get(i..i + n).unwrap_or(&[])
}

// Whether out is the bytes of want, and then only bytes as they were before.
fn holds(out: &[u8], want: &[u8]) -> bool {
    out.starts_with(want) && out[want.len()..].iter().all(|byte| *byte == BEFORE)
}

fn print_refused(rt: &impl Print, refusal: Refusal) -> io::Result<()> {
    let n = u8::from(refusal);
    print!(rt; " refused {n}")
}

fn print_ok(rt: &impl Print, n: usize, right: bool) -> io::Result<()> {
    let word = if right { "same" } else { "different" };
    print!(rt; " ok {n} {word}")
}

// Writes the rules to room bytes, and prints the answer.
fn write_case(rt: &impl Print, rules: Rules, room: usize, want: &[u8]) -> io::Result<()> {
    let mut out: [u8; 4096] = [BEFORE; 4096];
    if 4096 < room {
        return Ok(());
    }
    match rules::write_rules(rules, &mut out[..room]) {
        Ok(n) => {
            let right = n == want.len() && holds(&out, want);
            print_ok(rt, n, right)?;
        }
        Err(refusal) => {
            print_refused(rt, refusal)?;
            if !holds(&out, b"") {
                print!(rt; " touched")?;
            }
        }
    }
    Ok(())
}

// A file: how many bits were taken, what reading it answers, and if it is accepted what writing its rules back gives.
fn read_case(rt: &impl Print, file: &[u8]) -> io::Result<()> {
    let p = rules::read_rules(file);
    let bits = p.bits;
    print!(rt; " {bits} bits,")?;
    match p.answer {
        Ok(rules) => {
            print!(rt; " read,")?;
            write_case(rt, rules, 4096, file)
        }
        Err(refusal) => print_refused(rt, refusal),
    }
}

// The rules of a file, changed, are written. Returns the place after the record.
fn changed_case(rt: &impl Print, s: &[u8], at: usize, file: &[u8]) -> io::Result<usize>
    requires { at < 500000 }
    ensures { IfOk result (λ next. (at < next) × (next < 600000)) }
{
    let room = word(s, at);
    let n = byte(s, at + 2);
    let mut rules = rules::read_rules(file).answer.unwrap_or(no_rules());
    let mut i = at + 3;
    for k in 0..n {
        let v = word(s, i + 3) * 65536 + word(s, i + 5);
        rules = change::changed(rules, byte(s, i), word(s, i + 1), v);
        i += 7;
    }
    let size = word(s, i);
    let want = part(s, i + 2, size);
    write_case(rt, rules, room, want)?;
    Ok(i + 2 + size)
}

// A question on sets: membership, subset or proper subset.
fn print_set(rt: &impl Print, what: usize, n: u64, x: u64, m: u64, y: u64) -> io::Result<()> {
    let yes = match what {
        0 => bits::member(x, n, m),
        1 => bits::subset(x, n, y, m),
        _ => bits::proper(x, n, y, m),
    };
    let word = if yes { "yes" } else { "no" };
    print!(rt; " {word}")
}

// One record. Returns the place after it.
fn one(rt: &impl Print, s: &[u8], at: usize) -> io::Result<usize>
    requires { at < 65536 }
    ensures { IfOk result (λ next. (at < next) × (next < 700000)) }
{
    if byte(s, at) == 2 {
        print_set(
            rt,
            byte(s, at + 1),
            byte(s, at + 2) as u64,
            byte(s, at + 3) as u64,
            byte(s, at + 4) as u64,
            byte(s, at + 5) as u64,
        )?;
        return Ok(at + 6);
    }
    let n = word(s, at + 1);
    let file = part(s, at + 3, n);
    let next = at + 3 + n;
    if byte(s, at) == 0 {
        read_case(rt, file)?;
        return Ok(next);
    }
    changed_case(rt, s, next, file)
}

// All records of s.
fn all(rt: &impl Print, s: &[u8]) -> io::Result<()>
    requires { length s.now ≤ 65536 }
{
    let mut at: usize = 0;
    let mut k: u64 = 0;
    while at < s.len() {
        k += 1;
        print!(rt; "{k}")?;
        at = one(rt, s, at)?;
        println!(rt;)?;
    }
    println!(rt; "{k} cases")
}

fn main(rt: HostRuntime) -> io::Result<()> {
    let mut input: [u8; 65536] = [0; 65536];
    let n = streams::read_full(&mut rt.stdin(), &mut input)?;
    all(&rt, &input[..n])
}
