// Searches of item values.
#![tactic(auto)]

ghost use Rattle.std.specs.Prelude.{◌≡◌, ◌&&◌, ℕ};
ghost use Rattle.lanes.specs.Lanes.{lane_of, Lanes};
ghost use Rattle.policy.specs.Rules.{values_of};
ghost use Rattle.allowed_rows.specs.Basis.{model_by, InLists};
ghost use Rattle.allowed_rows.specs.Scratch.{Scratch};
ghost use Rattle.search.specs.Items.{one_found, any_found};

use allowed_rows::Basis;
use item_changes::grow;
use item_starts::{asked, starting};
use policy::Values;
use search::queue::Found;

// The values that helpers have, in the lists.
fn ready_of(basis: &Basis, helpers: [u64; 4]) -> [u64; 4]
    ensures { Lanes (λ (v : ℕ). (lane_of helpers v && lane_of basis.now.sessions v)) result }
{
    lanes::and(helpers, basis.sessions)
}

// The values that starting item j, which has value held, can have by sessions with these values. Sessions that the formula cannot tell apart are asked once.
pub fn one_item(basis: &Basis, area: &mut [u64], helpers: [u64; 4], j: u8, held: u8) -> Found
    requires in_lists { InLists basis.now }
    requires scratch { Scratch basis.now area.old }
    ensures { result ≡ one_found (model_by basis.now) (lane_of helpers) j held }
{
    let few = basis.one_of_each(ready_of(basis, helpers));
    let mut queue = Found::new();
    queue.push(held, 0, 256 + j as u16);
    grow(&mut queue, basis, area, few);
    queue
}

// The values that any item can have: one of the starting items, or one that is made.
pub fn any_item(basis: &Basis, area: &mut [u64], helpers: [u64; 4], items: Values) -> Found
    requires in_lists { InLists basis.now }
    requires scratch { Scratch basis.now area.old }
    ensures { result ≡ any_found (model_by basis.now) (lane_of helpers) (values_of items) }
{
    let ready = ready_of(basis, helpers);
    let few = basis.one_of_each(ready);
    let mut queue = Found::new();
    starting(&mut queue, &items);
    asked(&mut queue, basis, area, ready);
    grow(&mut queue, basis, area, few);
    queue
}
