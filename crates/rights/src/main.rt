// Reads a question (three bytes) and a rule file from standard input, and prints SAFE and both counts, or LEAK with the leak's rows, or REFUSED and
// the number. It lends the analyser 8,192 rows.
#![tactic(auto)]

use std::io;

fn main(rt: HostRuntime) -> io::Result<()> {
    let mut input: [u8; 4096] = program::input_buffer();
    let n = streams::read_full(&mut rt.stdin(), &mut input)?;
    let mut rows: [u64; 8192] = [0; 8192];
    let a = program::answer_of(&input[..n], &mut rows);
    output::print_answer(&mut rt.stdout(), a, &rows)
}
