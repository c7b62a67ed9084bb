// The next number: whether a step names it, and whether it can be given.
ghost use Rattle.std.specs.Prelude.{◌≡◌, ◌||◌, eqb};
ghost use Rattle.live.specs.Lent.{all_given, left};

use cells::{Row, place};

// Whether a step names the next number; any name will do where all numbers are given.
#[tactic(auto, unfolding(live::specs::Lent::all_given, live::specs::Lent::numbers))]
pub(super) fn is_next(next: u64, target: u64) -> bool
    ensures { result ≡ (all_given next || eqb target next) }
{
    Row::NUMBERS <= next || target == next
}

// Whether a number and a cell are left.
#[tactic(auto, unfolding(live::specs::Lent::left, live::specs::Lent::numbers))]
pub(super) fn is_left(cells: &[u64], next: u64) -> bool
    ensures { result ≡ left cells.now next }
{
    next < Row::NUMBERS && place(next) < cells.len()
}
