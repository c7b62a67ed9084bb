// Reading what stands before the values of a file: the head and the lists of attributes.
#![tactic(auto)]

ghost use Rattle.std.specs.Prelude.{◌≤◌};

pub mod head;
pub mod lists;

// The head's counts, each within its range.
#[derive(Clone, Copy)]
pub struct Counts {
    pub user: u8,
    pub session: u8,
    pub item: u8,
    pub users: u8,
    pub sessions: u8,
    pub items: u8,
    pub permissions: u8,
    pub ghost user_range: { user ≤ 8 },
    pub ghost session_range: { session ≤ 8 },
    pub ghost item_range: { item ≤ 8 },
    pub ghost users_range: { users ≤ 16 },
    pub ghost sessions_range: { sessions ≤ 32 },
    pub ghost items_range: { items ≤ 32 },
    pub ghost permissions_range: { permissions ≤ 8 },
}
