// The starting cells.
ghost use Rattle.std.specs.Prelude.{◌≡◌, ◌≤◌, length};
ghost use Rattle.policy.specs.Rules.{sessions_of, values_of};
ghost use Rattle.starting.specs.Start.{over, session_cells, item_cells};

use cells::{item_cell, open_cell};
use policy::{Sessions, Values};

// The cells of the starting sessions are written.
pub(super) fn put_sessions(cells: &mut [u64], starting: Sessions)
    requires { starting.count ≤ length cells.old }
    ensures { cells.new ≡ over (session_cells (sessions_of starting)) cells.old }
{
    let front = &mut cells[..starting.count as usize];
    for (k, cell) in front.iter_mut().enumerate() {
        let session = starting.session(k);
        *cell = open_cell(session.user, session.value);
    }
}

// The cells of the starting items are written.
pub(super) fn put_items(cells: &mut [u64], starting: Values)
    requires { starting.count ≤ length cells.old }
    ensures { cells.new ≡ over (item_cells (values_of starting)) cells.old }
{
    let front = &mut cells[..starting.count as usize];
    for (k, cell) in front.iter_mut().enumerate() {
        *cell = item_cell(starting.value(k));
    }
}
