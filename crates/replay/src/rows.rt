// Rows one after another on lent cells.
ghost use Rattle.std.specs.Prelude.{◌≡◌};
ghost use Rattle.policy.specs.Rules.{policy_of};
ghost use Rattle.allowed.specs.Allowed.{model_of};
ghost use Rattle.live.specs.Lent.{lent_as, refusal_of};
ghost use Rattle.replay.specs.Rows.{rows_in};

use live::Next;
use monitor::step_at;
use policy::Rules;
use refusal::Refusal;

// How rows came out: all carried out, or why the first that was not is refused; the next numbers; how many were carried out.
#[derive(Clone, Copy)]
pub struct Steps {
    pub outcome: Result<(), Refusal>,
    pub next: Next,
    pub count: usize,
}

// Carries out rows, up to the first that is refused.
#[tactic(auto, using(crate::proofs::Laws::row_next, crate::proofs::Laws::rows_all), unfolding(crate::specs::Rows::further))]
pub fn steps_at(
    rules: Rules,
    sessions: &mut [u64],
    items: &mut [u64],
    next: Next,
    rows: &[u64],
) -> Steps
    ensures { record { refusal = refusal_of result.outcome; lent = lent_as sessions.new items.new result.next; count = result.count } ≡ rows_in (model_of (policy_of rules)) (lent_as sessions.old items.old next) 0 rows.now }
{
    let mut at = next;
    for (i, row) in rows.iter().enumerate() {
        match step_at(rules, sessions, items, at, *row) {
            Ok(after) => {
                at = after;
            }
            Err(refusal) => {
                return Steps {
                    outcome: Err(refusal),
                    next: at,
                    count: i,
                };
            }
        }
    }
    Steps {
        outcome: Ok(()),
        next: at,
        count: rows.len(),
    }
}
