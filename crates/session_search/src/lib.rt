// Searches of session values.
#![tactic(auto)]

ghost use Rattle.std.specs.Prelude.{◌≡◌, ◌&&◌, ℕ, ◌<◌, ltb};
ghost use Rattle.lanes.specs.Lanes.{lane_of, Lanes};
ghost use Rattle.runs.specs.Edge.{changes_to};
ghost use Rattle.allowed_rows.specs.Asked.{ChangePrepared, ChangeReady};
ghost use Rattle.allowed_rows.specs.Basis.{model_by, InLists};
ghost use Rattle.allowed_rows.specs.Scratch.{Scratch};
ghost use Rattle.search.specs.Sessions.{grown_at, grow_to, sessions_found, own_found};

use allowed_rows::{Asked, Basis};
use prepared::Plan;
use search::queue::Found;

// From place i, if there is one, what user u may change a session to, asked of the values of the lists that aren't found yet while there are any.
fn grow_at(queue: &mut Found, basis: &Basis, area: &mut [u64], plan: &Plan, u: u8, i: usize)
    requires i_bound { i < 256 }
    requires in_lists { InLists basis.now }
    requires change_ready { ChangeReady basis.now plan.now u area.old }
    ensures queue_after { queue.new ≡ grown_at (model_by basis.now).session_value (changes_to (model_by basis.now) u) queue.old i }
    ensures change_ready_after { ChangeReady basis.now plan.now u area.new }
{
    if queue.len <= i {
        return;
    }
    let unmet = lanes::minus(basis.sessions, queue.seen);
    if lanes::is_none(unmet) {
        return;
    }
    let row = basis.allowed(Asked::Change, area, plan, u, queue.order[i], unmet);
    queue.spread(row, i as u16 + 1, 0);
}

// From every place in turn.
fn grow(queue: &mut Found, basis: &Basis, area: &mut [u64], plan: &Plan, u: u8)
    requires in_lists { InLists basis.now }
    requires change_prepared { ChangePrepared basis.now plan.now area.old }
    ensures queue_after { queue.new ≡ grow_to (model_by basis.now).session_value (changes_to (model_by basis.now) u) queue.old 256 }
    ensures change_prepared_after { ChangePrepared basis.now plan.now area.new }
{
    basis.begin(Asked::Change, area, plan, u);
    for i in 0..256 {
        grow_at(queue, basis, area, plan, u, i);
    }
}

// The values that sessions of user u can have, where `opened` are those that it may open one with.
pub fn user_values(basis: &Basis, area: &mut [u64], plan: &Plan, opened: [u64; 4], u: u8) -> Found
    requires in_lists { InLists basis.now }
    requires change_prepared { ChangePrepared basis.now plan.now area.old }
    requires lanes { Lanes (λ (v : ℕ). (lane_of basis.now.sessions v && (ltb u (model_by basis.now).users && (model_by basis.now).may_open u v))) opened }
    ensures value { result ≡ sessions_found (model_by basis.now) u }
    ensures change_prepared_after { ChangePrepared basis.now plan.now area.new }
{
    let mut queue = Found::new();
    queue.spread(opened, 0, 0);
    grow(&mut queue, basis, area, plan, u);
    queue
}

// The values that one session of user u with value held can have by its own changes. The formula is prepared in `area`.
#[tactic(auto, unfolding(search::specs::Sessions::own_found))]
pub fn own_values(basis: &Basis, area: &mut [u64], u: u8, held: u8) -> Found
    requires in_lists { InLists basis.now }
    requires scratch { Scratch basis.now area.old }
    ensures { result ≡ own_found (model_by basis.now) u held }
{
    let plan = basis.prepare(Asked::Change, area);
    let mut queue = Found::new();
    queue.push(held, 0, 0);
    grow(&mut queue, basis, area, &plan, u);
    queue
}
