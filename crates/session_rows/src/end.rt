// A row at the end of those so far, and the sessions that stand open.
ghost use Rattle.std.specs.Prelude.{◌≡◌, List, ◌∷◌, [], ℕ, ◌≤◌, ◌<◌, length, get_or as element};
ghost use Rattle.session_rows.specs.Writing.{row_of, wrote, stood, writing_of, Wrote};

use super::Pen;
use bits::get_or;
use cells::Row;

// The row of a step.
#[tactic(auto, unfolding(crate::specs::Writing::row_of))]
pub fn row_of(kind: u64, actor: u64, target: u64, value: u64) -> u64
    ensures { result ≡ row_of kind actor target value }
{
    Row::bits(Row::new(kind, actor, target, value))
}

impl Pen {
    // One row more, where there is room.
    #[tactic(auto, using(crate::proofs::Laws::none_written, crate::proofs::Laws::one_written))]
    pub fn put(&mut self, rows: &mut [u64], row: u64)
        requires { self.old.at ≤ length rows.old }
        ensures rows_after { writing_of self.new rows.new ≡ wrote (length rows.old) (row ∷ []) (writing_of self.old rows.old) }
        ensures wrote { Wrote self.old rows.old self.new rows.new }
    {
        let at = self.at;
        if rows.len() <= at {
            return;
        }
        rows[at] = row;
        self.at = at + 1;
    }

    // The next number is a session of user u that stands open with value v.
    #[tactic(auto, unfolding(crate::specs::Writing::stood))]
    pub(super) fn stand(&mut self, u: u8, v: usize)
        requires { self.old.next < 1000000 }
        ensures by_index { (rows : List ℕ) → writing_of self.new rows ≡ stood u v (writing_of self.old rows) }
        ensures at_value { self.new.at ≡ self.old.at }
    {
        let n = self.next + 1;
        if v < 256 {
            self.number[v] = n as u32;
            self.owner[v] = u;
        }
        self.next = n;
    }

    // The number plus 1 of the session that stands open with value v, or 0.
    pub fn number_at(&self, v: usize) -> u32
        ensures { result ≡ element self.now.number v 0 }
    {
        get_or(&self.number, v, 0)
    }

    // Its user.
    pub(super) fn owner_at(&self, v: usize) -> u8
        ensures { result ≡ element self.now.owner v 0 }
    {
        get_or(&self.owner, v, 0)
    }
}
