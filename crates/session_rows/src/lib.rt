// The rows so far of a leak, and those that bring a session to a value, along the way by which it was found.
#![tactic(auto)]

ghost use Rattle.std.specs.Prelude.{◌≡◌, cond, ◌-◌, ◌≤◌, ◌<◌, eqb, length, get_or as element};
ghost use Rattle.search.specs.Queue.{nothing as nothing_of};
ghost use Rattle.search.specs.Searched.{value_at, depth_at, place_at};
ghost use Rattle.search.specs.Path.{way_at};
ghost use Rattle.session_rows.specs.Writing.{row_of, wrote, writing_of, Wrote};
ghost use Rattle.session_rows.specs.Way.{way_rows, brought, helped, helped_by};

pub mod end;

use bits::get_or;
use cells::Row;
use end::row_of;
use search::queue::Found;

// Where the rows so far end, the next session number, and of each session value the number plus 1 of a session that stands open with it, or 0,
// and its user.
#[derive(Clone, Copy)]
pub struct Pen {
    pub at: usize,
    pub next: u64,
    pub number: [u32; 256],
    pub owner: [u8; 256],
}

// The searches of the users' sessions, and for each session value the number plus 1 of the user that is named for it, or 0.
#[derive(Clone, Copy)]
pub struct Searches<'a> {
    pub users: &'a [Found; 16],
    pub by: [u8; 256],
}

impl Searches<'_> {
    // The user that is named for value v.
    fn named_for(&self, v: usize) -> u8
        ensures { result ≡ element self.now.by v 0 - 1 }
    {
        get_or(&self.by, v, 0).saturating_sub(1)
    }
}

// The row of step i on the way to pos of session n of user u: it is opened, or changed.
fn way_row(q: &Found, pos: usize, i: usize, u: u8, n: u64) -> u64
    ensures { result ≡ row_of (cond (eqb i 0) 1 3) u n (value_at q.now (way_at q.now pos i)) }
{
    let kind = if i == 0 {
        Row::OPEN
    } else {
        Row::CHANGE_SESSION
    };
    row_of(kind, u as u64, n, q.way_value(pos, i) as u64)
}

impl Pen {
    // Session n of user u is opened with the start's value and changed along the way to pos, from the step `first` on: all rows, or none where they
    // have no room.
    pub fn write_way(
        &mut self,
        rows: &mut [u64],
        q: &Found,
        pos: usize,
        first: usize,
        u: u8,
        n: u64,
    )
        requires { (self.old.at ≤ length rows.old) × (first ≤ 1) }
        ensures rows_after { writing_of self.new rows.new ≡ wrote (length rows.old) (way_rows q.now pos first u n) (writing_of self.old rows.old) }
        ensures wrote { Wrote self.old rows.old self.new rows.new }
    {
        let at = self.at;
        let count = q.depth_at(pos) as usize + 1 - first;
        if rows.len() - at < count {
            return;
        }
        for (j, row) in rows[at..at + count].iter_mut().enumerate() {
            *row = way_row(q, pos, first + j, u, n);
        }
        self.at = at + count;
    }

    // A new session of user u is brought to value v, by the search q of that user's sessions, and stands open.
    #[tactic(auto, unfolding(crate::specs::Way::brought))]
    fn bring(&mut self, rows: &mut [u64], q: &Found, u: u8, v: usize)
        requires { (self.old.at ≤ length rows.old) × (self.old.next < 1000000) }
        ensures rows_after { writing_of self.new rows.new ≡ brought (length rows.old) q.now u v (writing_of self.old rows.old) }
        ensures wrote { Wrote self.old rows.old self.new rows.new }
    {
        self.write_way(rows, q, q.place_of(v), 0, u, self.next);
        self.stand(u, v);
    }

    // The same, by that one of the searches of all users, or by an empty one.
    fn bring_one(&mut self, rows: &mut [u64], users: &[Found; 16], u: u8, v: usize)
        requires { (self.old.at ≤ length rows.old) × (self.old.next < 1000000) }
        ensures rows_after { writing_of self.new rows.new ≡ brought (length rows.old) (element users.now u nothing_of) u v (writing_of self.old rows.old) }
        ensures wrote { Wrote self.old rows.old self.new rows.new }
    {
        match users.get(u as usize) {
            Some(q) => self.bring(rows, q, u, v),
            None => self.bring(rows, &Found::new(), u, v),
        }
    }

    // A session stands open with value v: one that does, or a new one of the user that is named for it.
    #[tactic(auto, unfolding(crate::specs::Way::helped))]
    pub fn help(&mut self, rows: &mut [u64], searches: &Searches, v: usize)
        requires { (self.old.at ≤ length rows.old) × (self.old.next < 1000000) }
        ensures rows_after { writing_of self.new rows.new ≡ helped (length rows.old) searches.now.users.now searches.now.by v (writing_of self.old rows.old) }
        ensures wrote { Wrote self.old rows.old self.new rows.new }
    {
        if self.number_at(v) != 0 {
            return;
        }
        let u = searches.named_for(v);
        self.bring_one(rows, searches.users, u, v);
    }

    // One of user u stands open with value v: one that does, or a new one.
    #[tactic(auto, unfolding(crate::specs::Way::helped_by))]
    pub fn help_by(&mut self, rows: &mut [u64], searches: &Searches, u: u8, v: usize)
        requires { (self.old.at ≤ length rows.old) × (self.old.next < 1000000) }
        ensures rows_after { writing_of self.new rows.new ≡ helped_by (length rows.old) searches.now.users.now searches.now.by u v (writing_of self.old rows.old) }
        ensures wrote { Wrote self.old rows.old self.new rows.new }
    {
        if self.number_at(v) != 0 && self.owner_at(v) == u {
            return;
        }
        self.bring_one(rows, searches.users, u, v);
    }
}
