// Rows and cells: a step as 64 bits, and how the lent cells code sessions and items (docs/CELLS.md).
#![tactic(auto)]

ghost use Rattle.std.specs.Prelude.{◌≡◌};
ghost use Rattle.policy.specs.Rules.{attrs_of};
ghost use Rattle.lists.specs.Lists.{listed as listed_in};
ghost use Rattle.cells.specs.Cell.{place_of, open_cell, item_cell, session_at, item_at, session_read, item_read};

mod kind;
mod row;

use bits::get_or;
pub use kind::Kind;
use lists::listed;
use policy::Class;
pub use row::Row;

// An open session: its user and value.
#[derive(Clone, Copy)]
pub struct Session {
    pub user: u8,
    pub value: u8,
}

// The cell that holds a number.
#[tactic(auto, unfolding(crate::specs::Cell::place_of))]
pub fn place(number: u64) -> usize
    ensures { result ≡ place_of number }
{
    number as usize
}

// The cell of an open session.
#[tactic(auto, unfolding(crate::specs::Cell::open_cell))]
pub fn open_cell(user: u8, value: u8) -> u64
    ensures { result ≡ open_cell user value }
{
    65536 + 256 * user as u64 + value as u64
}

// The cell of an item.
#[tactic(auto, unfolding(crate::specs::Cell::item_cell))]
pub fn item_cell(value: u8) -> u64
    ensures { result ≡ item_cell value }
{
    65536 + value as u64
}

// Session number k, as the lent cells read, where there are so many users and sessions have the attributes of the class.
#[tactic(auto, unfolding(crate::specs::Cell::session_at, crate::specs::Cell::session_in, crate::specs::Cell::session_read))]
pub fn session_at(users: u8, class: Class, cells: &[u64], next: u64, k: u64) -> Option<Session>
    ensures { result ≡ session_read (session_at users (listed_in (attrs_of class)) cells.now next k) }
{
    if next <= k {
        return None;
    }
    let c = get_or(cells, place(k), 0);
    if c / 65536 != 1 {
        return None;
    }
    let user = (c / 256 % 256) as u8;
    if users <= user {
        return None;
    }
    let value = (c % 256) as u8;
    listed(class, value as u64).then_some(Session { user, value })
}

// The value of item number k, as the lent cells read, where items have the attributes of the class.
#[tactic(auto, unfolding(crate::specs::Cell::item_at, crate::specs::Cell::item_in, crate::specs::Cell::item_read))]
pub fn item_at(class: Class, cells: &[u64], next: u64, k: u64) -> Option<u8>
    ensures { result ≡ item_read (item_at (listed_in (attrs_of class)) cells.now next k) }
{
    if next <= k {
        return None;
    }
    let c = get_or(cells, place(k), 0);
    if c / 256 != 256 {
        return None;
    }
    let value = (c % 256) as u8;
    listed(class, value as u64).then_some(value)
}
