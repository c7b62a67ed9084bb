// Steps on items, judged: make, change, access. As for sessions, the count of users and the lists are taken out of the rules first.
#![tactic(auto, using(crate::proofs::Laws::listed_byte, live::proofs::Laws::session_read_first, live::proofs::Laws::item_read_first, steps::proofs::ModelLaws::model_in_lem), unfolding(steps::specs::Step::making, steps::specs::Step::modifying, steps::specs::Step::accessing, steps::specs::Step::session_now, steps::specs::Step::item_now, steps::specs::Step::with_item, steps::specs::Step::item_given, live::specs::Lent::tested, live::specs::Lent::refused, live::specs::Lent::done, live::specs::Lent::left, live::specs::Lent::numbers, cells::specs::Row::step_of, refusal::specs::Number::number_of))]

ghost use Rattle.std.specs.Prelude.{◌≡◌};
ghost use Rattle.policy.specs.Rules.{policy_of};
ghost use Rattle.cells.specs.Row.{step_of};
ghost use Rattle.allowed.specs.Allowed.{model_of};
ghost use Rattle.live.specs.Lent.{lent_of};
ghost use Rattle.steps.specs.Step.{making, modifying, accessing};
ghost use Rattle.judge.specs.Judge.{applied_to};

use super::numbers::{is_left, is_next};
use super::{Change, Judged};
use allowed::{may_access, may_make, may_modify};
use cells::{Row, item_at, item_cell, place, session_at};
use lists::listed;
use live::{LiveState, Next};
use policy::Rules;
use refusal::Refusal;

// Makes an item with the next number.
pub(super) fn make_item(rules: Rules, state: &LiveState, row: Row) -> Result<Judged, Refusal>
    ensures { applied_to result (lent_of state.now) ≡ making (model_of (policy_of rules)) (lent_of state.now) (step_of row) }
{
    let users = rules.users.count;
    let classes = rules.classes;
    let next = state.next;
    let maker = session_at(
        users,
        classes.session,
        state.sessions,
        next.session,
        row.actor,
    )
    .ok_or(Refusal::Absent)?;
    if !is_next(next.item, row.target) {
        return Err(Refusal::Absent);
    }
    if !listed(classes.item, row.value) {
        return Err(Refusal::Value);
    }
    if !is_left(state.items, next.item) {
        return Err(Refusal::Cell);
    }
    let value = row.value as u8;
    if !may_make(rules, maker.value, value) {
        return Err(Refusal::Forbidden);
    }
    Ok(Judged {
        next: Next {
            session: next.session,
            item: next.item + 1,
        },
        change: Some(Change::Item(place(next.item), item_cell(value))),
    })
}

// Changes the value of an item.
pub(super) fn change_item(rules: Rules, state: &LiveState, row: Row) -> Result<Judged, Refusal>
    ensures { applied_to result (lent_of state.now) ≡ modifying (model_of (policy_of rules)) (lent_of state.now) (step_of row) }
{
    let users = rules.users.count;
    let classes = rules.classes;
    let next = state.next;
    let changer = session_at(
        users,
        classes.session,
        state.sessions,
        next.session,
        row.actor,
    )
    .ok_or(Refusal::Absent)?;
    let held = item_at(classes.item, state.items, next.item, row.target).ok_or(Refusal::Absent)?;
    if !listed(classes.item, row.value) {
        return Err(Refusal::Value);
    }
    let value = row.value as u8;
    if !may_modify(rules, changer.value, held, value) {
        return Err(Refusal::Forbidden);
    }
    Ok(Judged {
        next,
        change: Some(Change::Item(place(row.target), item_cell(value))),
    })
}

// Grants a permission on an item; changes nothing.
pub(super) fn access_item(rules: Rules, state: &LiveState, row: Row) -> Result<Judged, Refusal>
    ensures { applied_to result (lent_of state.now) ≡ accessing (model_of (policy_of rules)) (lent_of state.now) (step_of row) }
{
    let users = rules.users.count;
    let classes = rules.classes;
    let next = state.next;
    let asker = session_at(
        users,
        classes.session,
        state.sessions,
        next.session,
        row.actor,
    )
    .ok_or(Refusal::Absent)?;
    let held = item_at(classes.item, state.items, next.item, row.target).ok_or(Refusal::Absent)?;
    if rules.permissions as u64 <= row.value {
        return Err(Refusal::Absent);
    }
    if !may_access(rules, row.value as u8, asker.value, held) {
        return Err(Refusal::Forbidden);
    }
    Ok(Judged { next, change: None })
}
