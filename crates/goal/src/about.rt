// What a question asks about: the searches that it needs, and what a leak aims at.
ghost use Rattle.std.specs.Prelude.{◌≡◌, ◌<◌, ℕ, cond, eqb, None, Some};
ghost use Rattle.lanes.specs.Lanes.{lane_of, Lanes};
ghost use Rattle.allowed_rows.specs.Basis.{model_by, InLists};
ghost use Rattle.allowed_rows.specs.Scratch.{Scratch};
ghost use Rattle.search.specs.Searched.{depth_at};
ghost use Rattle.goal.specs.Asked.{item_found, session_found, who_found, actor_for, aim_of};

use allowed_rows::Basis;
use item_search::{any_item, one_item};
use leak::{Actor, Aim};
use policy::{Sessions, Values};
use replay::question::Question;
use search::queue::Found;
use session_search::own_values;

// The search of the values of the item that is asked about, or of any. Formulas are prepared in `area`.
#[tactic(auto, unfolding(crate::specs::Asked::item_found))]
pub fn item_values(
    basis: &Basis,
    area: &mut [u64],
    items: Values,
    helpers: [u64; 4],
    q: Question,
) -> Found
    requires in_lists { InLists basis.now }
    requires scratch { Scratch basis.now area.old }
    ensures value { result ≡ item_found (model_by basis.now) items (lane_of helpers) q }
    ensures shallow { (i : ℕ) → i < result.len → depth_at result i < 256 }
{
    if q.itemkind == Question::ITEM {
        let value = items.value(q.item as usize);
        return one_item(basis, area, helpers, q.item, value);
    }
    any_item(basis, area, helpers, items)
}

// The search of the values of the session that is asked about, or none. Formulas are prepared in `area`.
#[tactic(auto, unfolding(crate::specs::Asked::session_found))]
pub fn session_values(basis: &Basis, area: &mut [u64], starting: &Sessions, q: Question) -> Found
    requires in_lists { InLists basis.now }
    requires scratch { Scratch basis.now area.old }
    ensures { result ≡ session_found (model_by basis.now) starting.now q }
{
    match q.whokind {
        Question::SESSION => {
            let session = starting.session(q.who as usize);
            own_values(basis, area, session.user, session.value)
        }
        _ => Found::new(),
    }
}

// The values found.
fn seen_of(q: &Found) -> [u64; 4]
    ensures { Lanes (lane_of q.now.seen) result }
{
    q.seen
}

// The values that the session or sessions that are asked about can have.
#[tactic(auto, unfolding(crate::specs::Asked::who_found))]
pub fn who_values(users: &[Found; 16], helpers: [u64; 4], own: &Found, q: Question) -> [u64; 4]
    ensures { Lanes (who_found users.now (lane_of helpers) own.now q) result }
{
    match q.whokind {
        Question::SESSION => own.seen,
        Question::USER => match users.get(q.who as usize) {
            Some(found) => seen_of(found),
            None => lanes::none(),
        },
        _ => helpers,
    }
}

// Who is to act.
fn actor_of(starting: &Sessions, q: Question) -> Actor
    ensures { result ≡ actor_for starting.now q }
{
    match q.whokind {
        Question::SESSION => {
            let session = starting.session(q.who as usize);
            Actor::Session(q.who as u64, session.user)
        }
        Question::USER => Actor::User(q.who),
        _ => Actor::Anyone,
    }
}

// What the leak aims at.
#[tactic(auto, unfolding(crate::specs::Asked::aim_of))]
pub fn aim_of(starting: &Sessions, items: &Values, q: Question, value: usize) -> Aim
    ensures { result ≡ aim_of starting.now items.now q value }
{
    Aim {
        actor: actor_of(starting, q),
        value: (value % 256) as u8,
        items: items.count as u64,
        permission: q.permission,
    }
}

// The user that is asked about, if one is.
pub fn asked_user(q: Question) -> Option<u8>
    ensures { result ≡ cond (eqb q.whokind 1) (Some q.who) None }
{
    match q.whokind {
        Question::USER => Some(q.who),
        _ => None,
    }
}
