// Steps on sessions, judged: open, close, change. Each judge takes the count of users and the lists out of the rules first: read later, they cost a
// second copy of the rules.
#![tactic(auto, using(crate::proofs::Laws::listed_byte, live::proofs::Laws::session_read_first, steps::proofs::ModelLaws::model_in_lem), unfolding(steps::specs::Step::opening, steps::specs::Step::closing, steps::specs::Step::changing, steps::specs::Step::session_now, steps::specs::Step::with_session, steps::specs::Step::session_given, live::specs::Lent::tested, live::specs::Lent::refused, live::specs::Lent::done, live::specs::Lent::left, live::specs::Lent::numbers, cells::specs::Row::step_of, cells::specs::Cell::closed_cell, refusal::specs::Number::number_of))]

ghost use Rattle.std.specs.Prelude.{◌≡◌};
ghost use Rattle.policy.specs.Rules.{policy_of};
ghost use Rattle.cells.specs.Row.{step_of};
ghost use Rattle.allowed.specs.Allowed.{model_of};
ghost use Rattle.live.specs.Lent.{lent_of};
ghost use Rattle.steps.specs.Step.{opening, closing, changing};
ghost use Rattle.judge.specs.Judge.{applied_to};

use super::numbers::{is_left, is_next};
use super::{Change, Judged};
use allowed::{may_change, may_open};
use cells::{Row, open_cell, place, session_at};
use lists::listed;
use live::{LiveState, Next};
use policy::Rules;
use refusal::Refusal;

// Opens a session with the next number.
pub(super) fn open_session(rules: Rules, state: &LiveState, row: Row) -> Result<Judged, Refusal>
    ensures { applied_to result (lent_of state.now) ≡ opening (model_of (policy_of rules)) (lent_of state.now) (step_of row) }
{
    let users = rules.users.count;
    let classes = rules.classes;
    let next = state.next;
    if users as u64 <= row.actor || !is_next(next.session, row.target) {
        return Err(Refusal::Absent);
    }
    if !listed(classes.session, row.value) {
        return Err(Refusal::Value);
    }
    if !is_left(state.sessions, next.session) {
        return Err(Refusal::Cell);
    }
    let user = row.actor as u8;
    let value = row.value as u8;
    if !may_open(rules, user, value) {
        return Err(Refusal::Forbidden);
    }
    Ok(Judged {
        next: Next {
            session: next.session + 1,
            item: next.item,
        },
        change: Some(Change::Session(place(next.session), open_cell(user, value))),
    })
}

// Closes an open session of the actor.
pub(super) fn close_session(rules: Rules, state: &LiveState, row: Row) -> Result<Judged, Refusal>
    ensures { applied_to result (lent_of state.now) ≡ closing (model_of (policy_of rules)) (lent_of state.now) (step_of row) }
{
    let users = rules.users.count;
    let classes = rules.classes;
    let next = state.next;
    if row.value != 0 {
        return Err(Refusal::Row);
    }
    let target = session_at(
        users,
        classes.session,
        state.sessions,
        next.session,
        row.target,
    )
    .ok_or(Refusal::Absent)?;
    if row.actor != target.user as u64 {
        return Err(Refusal::Absent);
    }
    Ok(Judged {
        next,
        change: Some(Change::Session(place(row.target), 0)),
    })
}

// Changes the value of an open session of the actor.
pub(super) fn change_session(rules: Rules, state: &LiveState, row: Row) -> Result<Judged, Refusal>
    ensures { applied_to result (lent_of state.now) ≡ changing (model_of (policy_of rules)) (lent_of state.now) (step_of row) }
{
    let users = rules.users.count;
    let classes = rules.classes;
    let next = state.next;
    let held = session_at(
        users,
        classes.session,
        state.sessions,
        next.session,
        row.target,
    )
    .ok_or(Refusal::Absent)?;
    if row.actor != held.user as u64 {
        return Err(Refusal::Absent);
    }
    if !listed(classes.session, row.value) {
        return Err(Refusal::Value);
    }
    let value = row.value as u8;
    if !may_change(rules, held.user, held.value, value) {
        return Err(Refusal::Forbidden);
    }
    Ok(Judged {
        next,
        change: Some(Change::Session(place(row.target), open_cell(held.user, value))),
    })
}
