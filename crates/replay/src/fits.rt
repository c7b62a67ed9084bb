// Whether the last row, which was carried out, is a grant that fits the question.
ghost use Rattle.std.specs.Prelude.{◌≡◌};
ghost use Rattle.policy.specs.Rules.{policy_of};
ghost use Rattle.allowed.specs.Allowed.{model_of};
ghost use Rattle.cells.specs.Row.{parts_of, step_of};
ghost use Rattle.live.specs.Lent.{lent_of};
ghost use Rattle.replay.specs.Question.{who_of, which_of};
ghost use Rattle.replay.specs.Replay.{who_fits, which_fits, step_fits, last_fits};

use super::question::{Question, Which, Who};
use cells::{Row, session_at};
use live::LiveState;
use policy::Rules;

// Whether session number k is one that is asked about.
#[tactic(auto, using(crate::proofs::Laws::reads_as_of, steps::proofs::Laws::session_now_is), unfolding(crate::specs::Replay::who_fits, crate::specs::Question::who_of))]
fn who_fits(rules: Rules, state: &LiveState, q: Question, k: u64) -> bool
    ensures { result ≡ who_fits (model_of (policy_of rules)) (lent_of state.now) (who_of q) k }
{
    match q.asked_who() {
        Some(Who::Session(session)) => k == session as u64,
        Some(Who::User(user)) => {
            let users = rules.users.count;
            let class = rules.classes.session;
            let held = session_at(users, class, state.sessions, state.next.session, k);
            held.is_some_and(|session| session.user == user)
        }
        _ => true,
    }
}

// Whether item number k is one that is asked about.
#[tactic(auto, unfolding(crate::specs::Replay::which_fits, crate::specs::Question::which_of))]
fn which_fits(q: Question, k: u64) -> bool
    ensures { result ≡ which_fits (which_of q) k }
{
    match q.asked_item() {
        Some(Which::Item(item)) => k == item as u64,
        _ => true,
    }
}

// Whether a row that was carried out is a grant that fits.
#[tactic(auto, using(cells::proofs::Rows::step_is), unfolding(crate::specs::Replay::step_fits))]
fn step_fits(rules: Rules, state: &LiveState, q: Question, row: u64) -> bool
    ensures { result ≡ step_fits (model_of (policy_of rules)) (lent_of state.now) q (step_of (parts_of row)) }
{
    let r = Row::of(row);
    r.kind == Row::ACCESS
        && r.value == q.permission as u64
        && who_fits(rules, state, q, r.actor)
        && which_fits(q, r.target)
}

// Whether the last of the rows is; an empty leak has none.
#[tactic(auto, using(crate::proofs::Laws::none_fits, crate::proofs::Laws::last_is))]
pub(super) fn last_fits(rules: Rules, state: &LiveState, q: Question, rows: &[u64]) -> bool
    ensures { result ≡ last_fits (model_of (policy_of rules)) (lent_of state.now) q rows.now }
{
    match rows.last() {
        Some(row) => step_fits(rules, state, q, *row),
        None => false,
    }
}
