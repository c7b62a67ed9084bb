// Prepared formulas: what can be worked out once is, and each question is then answered for all packed values of one holder at once.
#![tactic(auto)]

ghost use Rattle.std.specs.Prelude.{◌≡◌, ◌≤◌, ◌<◌, length};

mod step_list;

use bitsets::load;
pub use step_list::StepList;

// Which holder has which part: a formula is prepared to be asked for one value of the outer holder and one of the row holder at a time, and to answer for
// all values of the lane holder at once. 0 user, 1 session as it is, 2 session as proposed, 3 item as it is, 4 item as proposed; 8 and 9 stand for none.
#[derive(Clone, Copy)]
pub struct Roles {
    pub lane: u8,
    pub row: u8,
    pub outer: u8,
    pub ghost apart: { (lane ≡ row → ⊥) × (lane ≡ outer → ⊥) × (row ≡ outer → ⊥) },
}

impl Roles {
    // The three holders.
    pub fn new(lane: u8, row: u8, outer: u8) -> Self
        requires { (lane ≡ row → ⊥) × (lane ≡ outer → ⊥) × (row ≡ outer → ⊥) }
        ensures { (result.lane ≡ lane) × (result.row ≡ row) × (result.outer ≡ outer) }
    {
        Roles { lane, row, outer }
    }
}

// Of a prepared formula: how many nodes it has, how many values of the row holder and of the outer holder are told apart, and the steps across, of the
// board and of a row.
#[derive(Clone, Copy)]
pub struct Plan {
    pub nodes: usize,
    pub rows: usize,
    pub outers: usize,
    pub across: StepList,
    pub board: StepList,
    pub row: StepList,
    pub ghost nodes_in_range: { nodes ≤ 64 },
    pub ghost rows_in_range: { (0 < rows) × (rows ≤ 256) },
    pub ghost outers_in_range: { (0 < outers) × (outers ≤ 256) },
}

impl Plan {
    ghost use Rattle.lanes.specs.Lanes.{Lanes};
    ghost use Rattle.bitsets.specs.Rows.{bit_at, Rows};
    ghost use Rattle.prepared.specs.Prepared.{begun, rowed, Runs};

    // Across and the board are worked out for the outer value o.
    pub fn begin(&self, area: &mut [u64], o: usize)
        requires { Runs self.now (length area.old) }
        ensures rows { Rows (begun self.now o (bit_at area.old)) area.new }
        ensures area_len_unchanged { length area.new ≡ length area.old }
    {
        let i = o % self.outers;
        self.across.run(area, i);
        self.board.run(area, i);
    }

    // What the formula says for the row value r: the last node's row.
    pub fn row_at(&self, area: &mut [u64], r: usize) -> [u64; 4]
        requires { Runs self.now (length area.old) }
        ensures rows { Rows (rowed self.now r (bit_at area.old)) area.new }
        ensures area_len_unchanged { length area.new ≡ length area.old }
        ensures lanes { Lanes (rowed self.now r (bit_at area.old) self.now.nodes) result }
    {
        self.row.run(area, r % self.rows);
        load(area, self.nodes)
    }
}
