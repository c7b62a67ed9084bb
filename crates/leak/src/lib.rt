// The rows of a leak: the item is brought to its value, then the session that is asked about, then the access.
#![tactic(auto)]

ghost use Rattle.std.specs.Prelude.{◌≡◌, List, ◌∷◌, [], ℕ, ◌+◌, ◌-◌, ◌≤◌, ◌<◌, length};
ghost use Rattle.session_rows.specs.Writing.{writing_of, Wrote};
ghost use Rattle.search.specs.Searched.{depth_at};
ghost use Rattle.search.specs.declared.queue.Found.{Found};
ghost use Rattle.leak.specs.Turn.{item_turn};
ghost use Rattle.leak.specs.Leak.{linked, item_to, item_of, actor_ready, actor_of, leak_written};

use cells::Row;
use search::queue::Found;
use session_rows::end::row_of;
use session_rows::{Pen, Searches};

// Who is asked about: a starting session, by its number and with its owner; a user's sessions; or any session.
#[derive(Clone, Copy)]
pub enum Actor {
    Session(u64, u8),
    User(u8),
    Anyone,
}

// What a leak aims at: who is asked about, the value that the actor is to have, how many starting items there are, and the permission.
#[derive(Clone, Copy)]
pub struct Aim {
    pub actor: Actor,
    pub value: u8,
    pub items: u64,
    pub permission: u8,
}

// A session that stands open with value v does a step of the kind on item t with value o.
#[tactic(auto, using(session_rows::proofs::Laws::kept_on), unfolding(crate::specs::Leak::linked))]
fn link(pen: &mut Pen, rows: &mut [u64], searches: &Searches, kind: u64, v: usize, t: u64, o: u8)
    requires { (pen.old.at ≤ length rows.old) × (pen.old.next < 1000000) }
    ensures rows_after { writing_of pen.new rows.new ≡ linked (length rows.old) searches.now.users.now searches.now.by kind v t o (writing_of pen.old rows.old) }
    ensures wrote { Wrote pen.old rows.old pen.new rows.new }
{
    pen.help(rows, searches, v);
    let actor = pen.number_at(v).saturating_sub(1) as u64;
    pen.put(rows, row_of(kind, actor, t, o as u64));
}

// Step j on the way to place pos of the search of items: a start that is made, or that stands; or a link.
#[tactic(auto, unfolding(crate::specs::Turn::item_turn))]
fn item_step(
    pen: &mut Pen,
    rows: &mut [u64],
    searches: &Searches,
    q: &Found,
    pos: usize,
    t: u64,
    j: usize,
)
    requires { (pen.old.at ≤ length rows.old) × (pen.old.next < 1000000) }
    ensures rows_after { writing_of pen.new rows.new ≡ item_turn (length rows.old) searches.now.users.now searches.now.by q.now pos t j (writing_of pen.old rows.old) }
    ensures wrote { Wrote pen.old rows.old pen.new rows.new }
{
    let place = q.way_at(pos, j);
    let via = q.via_at(place) as usize;
    if j != 0 {
        link(
            pen,
            rows,
            searches,
            Row::CHANGE_ITEM,
            via,
            t,
            q.value_at(place),
        );
    } else if via < 256 {
        link(pen, rows, searches, Row::MAKE, via, t, q.value_at(place));
    }
}

// The item is brought to the value at place pos of the search q.
fn bring_item(pen: &mut Pen, rows: &mut [u64], searches: &Searches, q: &Found, pos: usize, t: u64)
    requires { (pen.old.at ≤ length rows.old) × (pen.old.next < 900000) × (depth_at q.now pos < 256) }
    ensures rows_after { writing_of pen.new rows.new ≡ item_to (length rows.old) searches.now.users.now searches.now.by q.now pos t (depth_at q.now pos + 1) (writing_of pen.old rows.old) }
    ensures wrote { Wrote pen.old rows.old pen.new rows.new }
{
    let steps = q.depth_at(pos) as usize + 1;
    for j in 0..steps {
        item_step(pen, rows, searches, q, pos, t, j);
    }
}

// The item that the way to place pos is of: a starting one, or the next one.
#[tactic(auto, unfolding(crate::specs::Leak::item_of))]
fn item_of(q: &Found, pos: usize, items: u64) -> u64
    ensures { (room : ℕ) (users : List Found) (by : List ℕ) → result ≡ item_of room users by q.now pos items }
{
    let via = q.via_at(q.way_at(pos, 0)) as u64;
    via.checked_sub(256).unwrap_or(items)
}

// The session that acts is brought to its value.
#[tactic(auto, unfolding(crate::specs::Leak::actor_ready, crate::specs::Leak::ready_by))]
fn ready_actor(pen: &mut Pen, rows: &mut [u64], searches: &Searches, own: &Found, aim: &Aim)
    requires { (pen.old.at ≤ length rows.old) × (pen.old.next < 1000000) }
    ensures rows_after { writing_of pen.new rows.new ≡ actor_ready (length rows.old) searches.now.users.now searches.now.by own.now aim.now (writing_of pen.old rows.old) }
    ensures wrote { Wrote pen.old rows.old pen.new rows.new }
{
    let v = aim.value as usize;
    match aim.actor {
        Actor::Session(number, owner) => {
            pen.write_way(rows, own, own.place_of(v), 1, owner, number);
        }
        Actor::User(u) => {
            pen.help_by(rows, searches, u, v);
        }
        Actor::Anyone => {
            pen.help(rows, searches, v);
        }
    }
}

// The number of the session that acts.
#[tactic(auto, unfolding(crate::specs::Leak::actor_of, crate::specs::Leak::number_by))]
fn actor_of(pen: &Pen, aim: &Aim) -> u64
    ensures { (room : ℕ) (users : List Found) (by : List ℕ) (rows : List ℕ) → result ≡ actor_of room users by aim.now (writing_of pen.now rows) }
{
    match aim.actor {
        Actor::Session(number, _) => number,
        _ => pen.number_at(aim.value as usize).saturating_sub(1) as u64,
    }
}

// Writes the rows of a leak: the item at place pos of the search q, the actor (by its own search where a session is asked about), the access.
#[tactic(auto, using(session_rows::proofs::Laws::kept_on), unfolding(crate::specs::Leak::leak_written))]
pub fn write_leak(
    pen: &mut Pen,
    rows: &mut [u64],
    searches: &Searches,
    q: &Found,
    pos: usize,
    own: &Found,
    aim: &Aim,
)
    requires { (pen.old.at ≤ length rows.old) × (pen.old.next < 900000) × (depth_at q.now pos < 256) }
    ensures rows_after { writing_of pen.new rows.new ≡ leak_written (length rows.old) searches.now.users.now searches.now.by q.now pos own.now aim.now (writing_of pen.old rows.old) }
    ensures wrote { Wrote pen.old rows.old pen.new rows.new }
{
    let t = item_of(q, pos, aim.items);
    bring_item(pen, rows, searches, q, pos, t);
    ready_actor(pen, rows, searches, own, aim);
    let actor = actor_of(pen, aim);
    pen.put(rows, row_of(Row::ACCESS, actor, t, aim.permission as u64));
}
