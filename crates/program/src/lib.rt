// The program between reading its input and writing its lines.
#![tactic(auto)]

ghost use Rattle.std.specs.Prelude.{◌≡◌, ◌<◌, length};
ghost use Rattle.analyser.specs.Told.{told_of, rows_of};
ghost use Rattle.program.specs.Program.{ProgramMeans, largest_input};

use analyser::{Answer, analyse};
use refusal::Refusal;
use replay::question::Question;

// Room for an input: more bytes than a question and the largest rule file have.
pub fn input_buffer() -> [u8; 4096]
    ensures value { 4096 ≡ length result }
    ensures largest_input_in_bounds { largest_input < length result }
{
    [0; 4096]
}

// Answers an input: its first three bytes are the question, and the rest is the file. Fewer than three bytes get 1, and then `rows` is as it was.
pub fn answer_of(input: &[u8], rows: &mut [u64]) -> Result<Answer, Refusal>
    ensures { ProgramMeans input.now rows.old rows.new (told_of result) (rows_of result) }
{
    if input.len() < Question::BYTES {
        return Err(Refusal::EndsEarly);
    }
    analyse(&input[Question::BYTES..], &input[..Question::BYTES], rows)
}
