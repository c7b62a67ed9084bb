// The calls of the analyser and of replay for hosts: each returns 0, or paper 01's number.
#![tactic(auto)]

ghost use Rattle.std.specs.Prelude.{◌≡◌};
ghost use Rattle.rules.specs.Answers.{reading};
ghost use Rattle.replay.specs.Replay.{replayed};
ghost use Rattle.analyser.specs.Means.{Means};
ghost use Rattle.live.specs.Lent.{host_number};

use analyser::Verdict;
use live::number_of;

// Replays the rows of a leak from the file's start: 0 where each is carried out and the last is a grant that fits the question, or the first of
// the file's number, 10, 15, the number of the first row that is refused, and 17. The cells hold what ran: up to 10 and 15 they are as they were.
pub fn replay_leak(
    file: &[u8],
    question: &[u8],
    rows: &[u64],
    sessions: &mut [u64],
    items: &mut [u64],
) -> u32
    ensures value { result ≡ host_number (replayed (reading file.now) question.now rows.now sessions.old items.old).refusal }
    ensures sessions_after { sessions.new ≡ (replayed (reading file.now) question.now rows.now sessions.old items.old).lent.sessions }
    ensures after { items.new ≡ (replayed (reading file.now) question.now rows.now sessions.old items.old).lent.items }
{
    number_of(replay::replay(file, question, rows, sessions, items))
}

// Answers a question of a file: 0 with the verdict (1 safe, 2 leak), how many pairs of user and session value can be open, how many values the
// asked item can have, and how many rows the leak has, which then fill the front of `rows`, the rest as it was; or the first of the
// file's number, 9, 10 and 11, and then all four are 0, the verdict too: none. Unless it is a leak `rows` is as it was.
#[tactic(auto, unfolding(analyser::specs::Told::told_in, analyser::specs::Told::value_of, analyser::specs::Told::refused))]
pub fn answer(
    file: &[u8],
    question: &[u8],
    rows: &mut [u64],
    verdict: &mut u64,
    pairs: &mut u64,
    values: &mut u64,
    count: &mut u64,
) -> u32
    ensures { Means file.now question.now rows.old rows.new record { number = result; verdict = verdict.new; pairs = pairs.new; values = values.new } count.new }
{
    match analyser::analyse(file, question, rows) {
        Ok(answer) => {
            *verdict = match answer.verdict {
                Verdict::Safe => 1,
                Verdict::Leak => 2,
            };
            *pairs = answer.pairs as u64;
            *values = answer.values as u64;
            *count = answer.rows as u64;
            0
        }
        Err(refusal) => {
            *verdict = 0;
            *pairs = 0;
            *values = 0;
            *count = 0;
            u32::from(u8::from(refusal))
        }
    }
}
