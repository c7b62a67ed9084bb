// What sessions may change items to: a search from the values that are found.
#![tactic(auto)]

ghost use Rattle.std.specs.Prelude.{◌≡◌, cond, ◌+◌, ◌<◌};
ghost use Rattle.lanes.specs.Lanes.{lane_of, some_below};
ghost use Rattle.runs.specs.Edge.{modifies_to};
ghost use Rattle.allowed_rows.specs.Asked.{ModifyPrepared, ModifyReady};
ghost use Rattle.allowed_rows.specs.Basis.{model_by, InLists};
ghost use Rattle.allowed_rows.specs.Scratch.{Scratch};
ghost use Rattle.search.specs.Queue.{unmet, spread};
ghost use Rattle.search.specs.Items.{offered as offered_of, items_at, grow_items};

use allowed_rows::{Asked, Basis};
use prepared::Plan;
use search::queue::Found;

// What the session value v may change an item with value o to, which stands at place i; asked of the values that aren't found yet while there are any.
fn offer(queue: &mut Found, basis: &Basis, area: &mut [u64], plan: &Plan, v: usize, o: u8, i: usize)
    requires bounds { (i < 256) × (v < 256) }
    requires in_lists { InLists basis.now }
    requires modify_ready { ModifyReady basis.now plan.now o area.old }
    ensures queue_after { queue.new ≡ cond (some_below (unmet (model_by basis.now).item_value queue.old) 256) (spread (modifies_to (model_by basis.now) v o) queue.old (i + 1) v) queue.old }
    ensures modify_ready_after { ModifyReady basis.now plan.now o area.new }
{
    let unmet = lanes::minus(basis.items, queue.seen);
    if lanes::is_none(unmet) {
        return;
    }
    let row = basis.allowed(Asked::Modify, area, plan, o, v as u8, unmet);
    queue.spread(row, i as u16 + 1, v as u16);
}

// By session values, the last first: what each may change an item with the value at place i to.
fn offered(
    queue: &mut Found,
    basis: &Basis,
    area: &mut [u64],
    plan: &Plan,
    ready: [u64; 4],
    i: usize,
)
    requires i_bound { i < 256 }
    requires in_lists { InLists basis.now }
    requires modify_prepared { ModifyPrepared basis.now plan.now area.old }
    ensures queue_after { queue.new ≡ offered_of (model_by basis.now) (lane_of ready) queue.old i 256 }
    ensures modify_prepared_after { ModifyPrepared basis.now plan.now area.new }
{
    let o = queue.order[i];
    basis.begin(Asked::Modify, area, plan, o);
    for v in lanes::members(ready).rev() {
        offer(queue, basis, area, plan, v, o, i);
    }
}

// From place i, if there is one, while some value isn't found yet.
fn grow_at(
    queue: &mut Found,
    basis: &Basis,
    area: &mut [u64],
    plan: &Plan,
    ready: [u64; 4],
    i: usize,
)
    requires i_bound { i < 256 }
    requires in_lists { InLists basis.now }
    requires modify_prepared { ModifyPrepared basis.now plan.now area.old }
    ensures queue_after { queue.new ≡ items_at (model_by basis.now) (lane_of ready) queue.old i }
    ensures modify_prepared_after { ModifyPrepared basis.now plan.now area.new }
{
    if queue.len <= i {
        return;
    }
    if lanes::is_none(lanes::minus(basis.items, queue.seen)) {
        return;
    }
    offered(queue, basis, area, plan, ready, i);
}

// From every place in turn. The formula is prepared in `area`.
pub fn grow(queue: &mut Found, basis: &Basis, area: &mut [u64], ready: [u64; 4])
    requires in_lists { InLists basis.now }
    requires scratch { Scratch basis.now area.old }
    ensures { queue.new ≡ grow_items (model_by basis.now) (lane_of ready) queue.old 256 }
{
    let plan = basis.prepare(Asked::Modify, area);
    for i in 0..256 {
        grow_at(queue, basis, area, &plan, ready, i);
    }
}
