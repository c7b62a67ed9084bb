// The monitor: steps on lent cells, each judged and then done. What a step does is in crate steps, specs/Step; how cells are coded in
// docs/CELLS.md.
#![tactic(auto)]

ghost use Rattle.std.specs.Prelude.{◌≡◌, OnErr};
ghost use Rattle.std.specs.Result.{result_unwrap_or};
ghost use Rattle.policy.specs.Rules.{policy_of};
ghost use Rattle.allowed.specs.Allowed.{model_of};
ghost use Rattle.live.specs.Lent.{leaves, lent_as};
ghost use Rattle.steps.specs.Step.{step_in};

use judge::{apply, judge};
use live::{LiveState, Next};
use policy::Rules;
use refusal::Refusal;

// Carries out the step of a row and returns the next numbers, or is refused by the first of 12 to 16 and changes nothing. At most the target's cell is
// written. Any cells, next numbers and rules will do: they are taken as they read.
#[tactic(auto, unfolding(live::specs::Lent::refused, live::specs::Lent::done))]
pub fn step_at(
    rules: Rules,
    sessions: &mut [u64],
    items: &mut [u64],
    next: Next,
    row: u64,
) -> Result<Next, Refusal>
    ensures { leaves result (result_unwrap_or result next) sessions.new items.new ≡ step_in (model_of (policy_of rules)) (lent_as sessions.old items.old next) row }
{
    let state = LiveState {
        sessions,
        items,
        next,
    };
    let judged = judge(rules, &state, row)?;
    Ok(apply(judged, sessions, items))
}

// As `step_at`, with the next numbers lent: they are brought up to date where the step is carried out, and stay as they were where it is
// refused.
pub fn step(
    rules: Rules,
    sessions: &mut [u64],
    items: &mut [u64],
    next: &mut Next,
    row: u64,
) -> Result<(), Refusal>
    ensures refused { OnErr result (next.new ≡ next.old) }
    ensures after { leaves result next.new sessions.new items.new ≡ step_in (model_of (policy_of rules)) (lent_as sessions.old items.old next.old) row }
{
    *next = step_at(rules, sessions, items, *next, row)?;
    Ok(())
}

// As `step_at`, by `step`: the next numbers are kept in a local, which is lent.
pub fn step_with(
    rules: Rules,
    sessions: &mut [u64],
    items: &mut [u64],
    next: Next,
    row: u64,
) -> Result<Next, Refusal>
    ensures { leaves result (result_unwrap_or result next) sessions.new items.new ≡ step_in (model_of (policy_of rules)) (lent_as sessions.old items.old next) row }
{
    let mut after = next;
    step(rules, sessions, items, &mut after, row)?;
    Ok(after)
}
