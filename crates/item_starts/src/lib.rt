// What items begin with: the values of the starting items, and those that sessions can make.
#![tactic(auto)]

ghost use Rattle.std.specs.Prelude.{◌≡◌};
ghost use Rattle.lanes.specs.Lanes.{lane_of};
ghost use Rattle.policy.specs.Rules.{values_of};
ghost use Rattle.allowed_rows.specs.Basis.{model_by, InLists};
ghost use Rattle.allowed_rows.specs.Scratch.{Scratch};
ghost use Rattle.search.specs.Items.{asked as asked_of, Had, start_roots};

use allowed_rows::{Asked, Basis};
use bits::get_or;
use policy::Values;
use search::queue::Found;

// The starting items' values are starts.
pub fn starting(queue: &mut Found, items: &Values)
    ensures { queue.new ≡ start_roots (values_of items.now) queue.old items.now.count }
{
    for j in 0..items.count as usize {
        let value = get_or(&items.values, j, 0);
        if !lanes::has(queue.seen, value as usize) {
            queue.push(value, 0, 256 + j as u16);
        }
    }
}

// By item values: those not found yet are asked for one after another, whether a session can make them. The formula is prepared in `area`.
pub fn asked(queue: &mut Found, basis: &Basis, area: &mut [u64], ready: [u64; 4])
    requires in_lists { InLists basis.now }
    requires scratch { Scratch basis.now area.old }
    requires had { Had (model_by basis.now) ready }
    ensures { queue.new ≡ asked_of (model_by basis.now) (lane_of ready) queue.old 256 }
{
    let plan = basis.prepare(Asked::Make, area);
    basis.begin(Asked::Make, area, &plan, 0);
    for n in lanes::members(lanes::minus(basis.items, queue.seen)) {
        let by = lanes::highest(basis.allowed(Asked::Make, area, &plan, 0, n as u8, ready));
        if by < 256 {
            queue.push(n as u8, 0, by as u16);
        }
    }
}
