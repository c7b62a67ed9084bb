// What the programs print: one line for the verdict, then a line for each row of a leak.
#![tactic(auto)]

ghost use Rattle.std.specs.Prelude.{◌≡◌, [], ◌∷◌, ◌++◌, ◌+◌, ◌≤◌, min, length};
ghost use Rattle.analyser.specs.Told.{told_in, rows_of};
ghost use Rattle.output.specs.Lines.{numeral, safe_word, leak_word, refused_word, line, verdict_line, row_line, line_at};
ghost use Rattle.output.specs.Put.{over, fitting, put_at};

use analyser::{Answer, Verdict};
use bits::get_or;
use cells::Row;
use itoa::Buffer;
use refusal::Numbered;
use std::io;
use std::io::Write;

const SPACE: u8 = 32;

const NEWLINE: u8 = 10;

// Puts the bytes of a word into `out` from place `at` on, as many as fit, and returns the next place.
fn put_bytes(word: &[u8], out: &mut [u8], at: usize) -> usize
    requires { at ≤ length out.old }
    ensures value { result ≡ at + fitting out.old at word.now }
    ensures out_after { out.new ≡ put_at out.old at word.now }
    ensures upper_bound { result ≤ length out.new }
{
    let n = word.len().min(out.len() - at);
    out[at..at + n].copy_from_slice(&word[..n]);
    at + n
}

// Puts a number and the byte after it.
fn put_number(n: u64, end: u8, out: &mut [u8], at: usize) -> usize
    requires { at ≤ length out.old }
    ensures value { result ≡ at + fitting out.old at (numeral n ++ (end ∷ [])) }
    ensures out_after { out.new ≡ put_at out.old at (numeral n ++ (end ∷ [])) }
    ensures upper_bound { result ≤ length out.new }
{
    let mut digits = Buffer::new();
    let next = put_bytes(digits.format(n).as_bytes(), out, at);
    let last = [end];
    put_bytes(&last, out, next)
}

// The line of a number that is given.
fn refused_line(n: u64, out: &mut [u8]) -> usize
    ensures value { result ≡ min (length (line (refused_word ∷ numeral n ∷ []))) (length out.old) }
    ensures out_after { out.new ≡ over (line (refused_word ∷ numeral n ∷ [])) out.old }
{
    let at = put_bytes(b"REFUSED ", out, 0);
    put_number(n, NEWLINE, out, at)
}

// The line of a safe answer.
fn safe_line(pairs: u64, values: u64, out: &mut [u8]) -> usize
    ensures value { result ≡ min (length (line (safe_word ∷ numeral pairs ∷ numeral values ∷ []))) (length out.old) }
    ensures out_after { out.new ≡ over (line (safe_word ∷ numeral pairs ∷ numeral values ∷ [])) out.old }
{
    let a = put_bytes(b"SAFE ", out, 0);
    let b = put_number(pairs, SPACE, out, a);
    put_number(values, NEWLINE, out, b)
}

// The line of a leak.
fn leak_line(rows: u64, pairs: u64, values: u64, out: &mut [u8]) -> usize
    ensures value { result ≡ min (length (line (leak_word ∷ numeral rows ∷ numeral pairs ∷ numeral values ∷ []))) (length out.old) }
    ensures out_after { out.new ≡ over (line (leak_word ∷ numeral rows ∷ numeral pairs ∷ numeral values ∷ [])) out.old }
{
    let a = put_bytes(b"LEAK ", out, 0);
    let b = put_number(rows, SPACE, out, a);
    let c = put_number(pairs, SPACE, out, b);
    put_number(values, NEWLINE, out, c)
}

// The line of a row.
fn row_line(x: u64, out: &mut [u8]) -> usize
    ensures value { result ≡ min (length (row_line x)) (length out.old) }
    ensures out_after { out.new ≡ over (row_line x) out.old }
{
    let row = Row::of(x);
    let a = put_number(row.kind, SPACE, out, 0);
    let b = put_number(row.actor, SPACE, out, a);
    let c = put_number(row.target, SPACE, out, b);
    put_number(row.value, NEWLINE, out, c)
}

// The line of the verdict, or of the refusal.
#[tactic(auto, unfolding(analyser::specs::Told::told_in, analyser::specs::Told::value_of, analyser::specs::Told::refused, crate::specs::Lines::verdict_line))]
fn verdict_line<E: Numbered>(answered: Result<Answer, E>, out: &mut [u8]) -> usize
    ensures value { result ≡ min (length (verdict_line (told_in E.numbered answered) (rows_of answered))) (length out.old) }
    ensures out_after { out.new ≡ over (verdict_line (told_in E.numbered answered) (rows_of answered)) out.old }
{
    match answered {
        Err(refusal) => refused_line(u64::from(refusal.number()), out),
        Ok(answer) => match answer.verdict {
            Verdict::Safe => safe_line(answer.pairs as u64, answer.values as u64, out),
            Verdict::Leak => {
                let rows = answer.rows as u64;
                leak_line(rows, answer.pairs as u64, answer.values as u64, out)
            }
        },
    }
}

// Puts line i of an answer at the front of `out`, as many bytes as fit, and returns how many. Line 0 is the verdict's, line i + 1 that of row i. The
// rest of `out` is as it was.
pub fn line_of<E: Numbered>(
    answered: Result<Answer, E>,
    rows: &[u64],
    i: usize,
    out: &mut [u8],
) -> usize
    ensures value { result ≡ min (length (line_at (told_in E.numbered answered) (rows_of answered) rows.now i)) (length out.old) }
    ensures out_after { out.new ≡ over (line_at (told_in E.numbered answered) (rows_of answered) rows.now i) out.old }
{
    if i == 0 {
        return verdict_line(answered, out);
    }
    row_line(get_or(rows, i - 1, 0), out)
}

// Prints line i.
fn print_line<W: Write, E: Numbered>(
    writer: &mut W,
    answered: Result<Answer, E>,
    rows: &[u64],
    i: usize,
) -> io::Result<()> {
    let mut out: [u8; 32] = [0; 32];
    let n = line_of(answered, rows, i, &mut out);
    writer.write_all(&out[..n])
}

// Prints the answer, and the leak's rows, which stand at the front of `rows`. The first write that fails ends it.
pub fn print_answer<W: Write, E: Numbered>(
    writer: &mut W,
    answered: Result<Answer, E>,
    rows: &[u64],
) -> io::Result<()> {
    print_line(writer, answered, rows, 0)?;
    let n = answered.map_or(0, |answer| answer.rows);
    for i in 0..n {
        print_line(writer, answered, rows, i + 1)?;
    }
    Ok(())
}
