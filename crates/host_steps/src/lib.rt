// The calls on live states for hosts: each returns 0, or paper 01's number, and the next numbers are lent one by one.
#![tactic(auto)]

ghost use Rattle.std.specs.Prelude.{◌≡◌};
ghost use Rattle.std.specs.Result.{result_unwrap_or};
ghost use Rattle.rules.specs.Answers.{reading};
ghost use Rattle.live.specs.Lent.{lent_as, leaves, refusal_of, host_number};
ghost use Rattle.host_steps.specs.Steps.{host_started, host_stepped, host_steps};

use live::{Next, number_of};
use refusal::Refusal;
use replay::rows::steps_at;
use rules::read_rules;

// Starts a live state: 0 and the starting cells and next numbers written, or the file's number, or 15; then nothing changes.
pub fn start(
    file: &[u8],
    sessions: &mut [u64],
    items: &mut [u64],
    session: &mut u64,
    item: &mut u64,
) -> u32
    ensures value { result ≡ host_number (host_started (reading file.now) (lent_as sessions.old items.old record { session = session.old; item = item.old })).refusal }
    ensures item_after { lent_as sessions.new items.new record { session = session.new; item = item.new } ≡ (host_started (reading file.now) (lent_as sessions.old items.old record { session = session.old; item = item.old })).lent }
{
    let begun = starting::start(file, sessions, items).outcome;
    match begun {
        Ok(first) => {
            *session = first.session;
            *item = first.item;
            0
        }
        Err(refusal) => u32::from(u8::from(refusal)),
    }
}

// Carries out a step with the rules of a file, and returns the next numbers; or why the file or the step is refused, and then nothing changes.
#[tactic(auto, unfolding(crate::specs::Steps::host_stepped, rules::specs::Answers::answer_of, live::specs::Lent::refused))]
fn stepped(
    file: &[u8],
    sessions: &mut [u64],
    items: &mut [u64],
    next: Next,
    row: u64,
) -> Result<Next, Refusal>
    ensures { leaves result (result_unwrap_or result next) sessions.new items.new ≡ host_stepped (reading file.now) (lent_as sessions.old items.old next) row }
{
    let rules = read_rules(file).answer?;
    monitor::step_at(rules, sessions, items, next, row)
}

// Carries out a step on a live state: 0, or the file's number, or 12 to 16 of the row; then nothing changes.
pub fn step(
    file: &[u8],
    sessions: &mut [u64],
    items: &mut [u64],
    session: &mut u64,
    item: &mut u64,
    row: u64,
) -> u32
    ensures value { result ≡ host_number (host_stepped (reading file.now) (lent_as sessions.old items.old record { session = session.old; item = item.old }) row).refusal }
    ensures item_after { lent_as sessions.new items.new record { session = session.new; item = item.new } ≡ (host_stepped (reading file.now) (lent_as sessions.old items.old record { session = session.old; item = item.old }) row).lent }
{
    let next = Next {
        session: *session,
        item: *item,
    };
    let came = stepped(file, sessions, items, next, row);
    if let Ok(after) = came {
        *session = after.session;
        *item = after.item;
    }
    number_of(came)
}

// Carries out rows one after another, each as `step` would, with one reading of the file, up to the first that gives a number: 0, or
// the file's number, with rows or without, or 12 to 16 of that row. `done` is how many were carried out; the cells and the next
// numbers are as those rows left them.
#[tactic(auto, using(crate::proofs::Laws::rows_same), unfolding(crate::specs::Steps::host_steps, rules::specs::Answers::answer_of, live::specs::Lent::host_number))]
pub fn step_all(
    file: &[u8],
    sessions: &mut [u64],
    items: &mut [u64],
    session: &mut u64,
    item: &mut u64,
    rows: &[u64],
    done: &mut u64,
) -> u32
    ensures value { result ≡ host_number (host_steps (reading file.now) (lent_as sessions.old items.old record { session = session.old; item = item.old }) rows.now).refusal }
    ensures item_after { lent_as sessions.new items.new record { session = session.new; item = item.new } ≡ (host_steps (reading file.now) (lent_as sessions.old items.old record { session = session.old; item = item.old }) rows.now).lent }
    ensures done_after { done.new ≡ (host_steps (reading file.now) (lent_as sessions.old items.old record { session = session.old; item = item.old }) rows.now).count }
{
    match read_rules(file).answer {
        Ok(rules) => {
            let next = Next {
                session: *session,
                item: *item,
            };
            let ran = steps_at(rules, sessions, items, next, rows);
            *session = ran.next.session;
            *item = ran.next.item;
            *done = ran.count as u64;
            number_of(ran.outcome)
        }
        Err(refusal) => {
            *done = 0;
            u32::from(u8::from(refusal))
        }
    }
}
