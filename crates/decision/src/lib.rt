// Decides a question of rules whose users' sessions were searched.
#![tactic(auto)]

ghost use Rattle.std.specs.Prelude.{ℕ, ◌≤◌, ◌<◌};
ghost use Rattle.allowed_rows.specs.Basis.{BasisOf};
ghost use Rattle.allowed_rows.specs.Scratch.{Scratch};
ghost use Rattle.user_results.specs.Found.{user_found};
ghost use Rattle.search.specs.Searched.{depth_at};
ghost use Rattle.decision.specs.Decide.{LeakLeftBy, DecidedBy};

use allowed_rows::Basis;
use goal::{about, aim};
use hits::{Hit, first_hit};
use leak::write_leak;
use policy::Rules;
use replay::question::Question;
use search::queue::Found;
use session_rows::Searches;

// How many pairs of user and session value can be open; how many values the asked item can have; and how many rows the leak has, if there is one.
#[derive(Clone, Copy)]
pub struct Decision {
    pub pairs: usize,
    pub values: usize,
    pub leak: Option<usize>,
}

// Writes the leak of a hit to the front of `rows`, and gives how many rows it has.
fn write_rows(
    rows: &mut [u64],
    users: &[Found; 16],
    rules: &Rules,
    q: Question,
    found: &Found,
    own: &Found,
    hit: Hit,
) -> usize
    requires { depth_at found.now hit.place < 256 }
    ensures { LeakLeftBy users.now rules.now.sessions rules.now.items q found.now own.now hit.place hit.value rows.old rows.new result }
{
    let asked = about::asked_user(q);
    let by = user_results::name_users(users, asked);
    let mut pen = aim::first_pen(&rules.sessions, asked);
    let aimed = about::aim_of(&rules.sessions, &rules.items, q, hit.value as usize);
    write_leak(
        &mut pen,
        rows,
        &Searches { users, by },
        found,
        hit.place,
        own,
        &aimed,
    );
    pen.at
}

// Decides a question that is good, of rules whose starting sessions could have been brought about. Formulas are prepared in `area`.
pub fn decide(
    rules: &Rules,
    users: &[Found; 16],
    q: Question,
    rows: &mut [u64],
    basis: &Basis,
    area: &mut [u64],
) -> Decision
    requires by_index { (u : ℕ) → u < 16 → (user_found users.now u).len ≤ 256 }
    requires basis_of { BasisOf rules.now basis.now }
    requires scratch { Scratch basis.now area.old }
    requires permission_bound { q.permission < basis.now.permissions }
    ensures { DecidedBy rules.now users.now q rows.old rows.new result }
{
    let helpers = user_results::helpers(users);
    let items = about::item_values(basis, area, rules.items, helpers, q);
    let own = about::session_values(basis, area, &rules.sessions, q);
    let who = about::who_values(users, helpers, &own, q);
    let pairs = user_results::count_pairs(users);
    let values = items.len;
    match first_hit(basis, area, q.permission, who, &items) {
        Some(hit) => {
            let end = write_rows(rows, users, rules, q, &items, &own, hit);
            Decision {
                pairs,
                values,
                leak: Some(end),
            }
        }
        None => Decision {
            pairs,
            values,
            leak: None,
        },
    }
}
