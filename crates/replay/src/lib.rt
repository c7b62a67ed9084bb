// Replay: a leak's rows are run from a file's start, and the last must be the grant that was asked about.
#![tactic(auto)]

ghost use Rattle.std.specs.Prelude.{◌≡◌};
ghost use Rattle.rules.specs.Answers.{reading};
ghost use Rattle.live.specs.Lent.{refusal_of};
ghost use Rattle.replay.specs.Replay.{replayed};

mod fits;
pub mod question;
pub mod rows;

use live::LiveState;
use question::Question;
use refusal::Refusal;
use rows::steps_at;
use rules::read_rules;
use starting::start_with;

// Replays rows from a file's start for a question: carried out, or the first of the file's number, 10, 15 where the starting cells don't fit,
// the number of the first row that is refused, and 17 unless the last row is a grant that fits the question. The cells hold what ran: up to
// 10 and 15 they are as they were, and a row that is refused changes none.
#[tactic(auto, using(live::proofs::Laws::refused_is), unfolding(crate::specs::Replay::replayed, crate::specs::Replay::played, crate::specs::Replay::judged, rules::specs::Answers::answer_of, refusal::specs::Number::number_of))]
pub fn replay(
    file: &[u8],
    question: &[u8],
    rows: &[u64],
    sessions: &mut [u64],
    items: &mut [u64],
) -> Result<(), Refusal>
    ensures result_value { refusal_of result ≡ (replayed (reading file.now) question.now rows.now sessions.old items.old).refusal }
    ensures sessions_after { sessions.new ≡ (replayed (reading file.now) question.now rows.now sessions.old items.old).lent.sessions }
    ensures after { items.new ≡ (replayed (reading file.now) question.now rows.now sessions.old items.old).lent.items }
{
    let rules = read_rules(file).answer?;
    if !question::asks(rules, question) {
        return Err(Refusal::Question);
    }
    let next = start_with(rules, sessions, items)?;
    let ran = steps_at(rules, sessions, items, next, rows);
    ran.outcome?;
    let state = LiveState {
        sessions,
        items,
        next: ran.next,
    };
    if !fits::last_fits(rules, &state, Question::of(question), rows) {
        return Err(Refusal::Grant);
    }
    Ok(())
}
