// The searches of all users' sessions.
#![tactic(auto)]

ghost use Rattle.std.specs.Prelude.{◌≡◌, cond, ◌<◌, ltb, get_or as element, IfSome};
ghost use Rattle.lanes.specs.Lanes.{Lanes};
ghost use Rattle.allowed_rows.specs.Asked.{OpenPrepared, ChangePrepared};
ghost use Rattle.allowed_rows.specs.Basis.{model_by, InLists};
ghost use Rattle.allowed_rows.specs.Scratch.{Scratch};
ghost use Rattle.search.specs.Queue.{nothing};
ghost use Rattle.search.specs.Sessions.{sessions_found};
ghost use Rattle.user_results.specs.Found.{UsersFound};
ghost use Rattle.user_searches.specs.Opened.{opens_in, Opened};

use allowed_rows::{Asked, Basis};
use bits::get_or;
use policy::Values;
use prepared::Plan;
use search::queue::Found;
use session_search::user_values;

// For each user the session values that it may open a session with.
fn open_each(basis: &Basis, area: &mut [u64], plan: &Plan) -> [[u64; 4]; 16]
    requires { OpenPrepared basis.now plan.now area.old }
    ensures { Opened basis.now result }
{
    let mut rows = [[0u64; 4]; 16];
    for (u, row) in rows.iter_mut().enumerate() {
        *row = basis.opened_with(area, plan, u as u8, basis.sessions);
    }
    rows
}

// The search of user u, or nothing where there is no such user.
fn search_user(basis: &Basis, area: &mut [u64], plan: &Plan, opened: [u64; 4], u: u8) -> Found
    requires in_lists { InLists basis.now }
    requires change_prepared { ChangePrepared basis.now plan.now area.old }
    requires lanes { Lanes (opens_in basis.now u) opened }
    ensures value { result ≡ cond (ltb u (model_by basis.now).users) (sessions_found (model_by basis.now) u) nothing }
    ensures change_prepared_after { ChangePrepared basis.now plan.now area.new }
{
    if basis.users.count <= u {
        return Found::new();
    }
    user_values(basis, area, plan, opened, u)
}

// A user before user u with the same value, if there is such a user u.
fn first_with(users: &Values, u: usize) -> Option<usize>
    ensures { IfSome result (λ w. (w < u) × (u < users.now.count) × (element users.now.values w 0 ≡ element users.now.values u 0)) }
{
    if users.count as usize <= u {
        return None;
    }
    let value = get_or(&users.values, u, 0);
    users.values.iter().take(u).position(|x| *x == value)
}

// The search of each user. Users with the same value have the same search.
fn search_each(basis: &Basis, area: &mut [u64], plan: &Plan, opened: &[[u64; 4]; 16]) -> [Found; 16]
    requires in_lists { InLists basis.now }
    requires change_prepared { ChangePrepared basis.now plan.now area.old }
    requires opened { Opened basis.now opened.now }
    ensures { UsersFound (model_by basis.now) result }
{
    let none = Found::new();
    let mut users = [none; 16];
    for u in 0..16 {
        let q = match first_with(&basis.users, u) {
            Some(w) => users[w],
            None => search_user(basis, area, plan, opened[u], u as u8),
        };
        users[u] = q;
    }
    users
}

// The searches of the users. Formulas are prepared in `area`.
pub fn search_users(basis: &Basis, area: &mut [u64]) -> [Found; 16]
    requires in_lists { InLists basis.now }
    requires scratch { Scratch basis.now area.old }
    ensures { UsersFound (model_by basis.now) result }
{
    let open = basis.prepare(Asked::Open, area);
    let opened = open_each(basis, area, &open);
    let change = basis.prepare(Asked::Change, area);
    search_each(basis, area, &change, &opened)
}
