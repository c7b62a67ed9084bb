// The tables of a formula's comparisons.
#![tactic(auto)]

ghost use Rattle.std.specs.Prelude.{◌≡◌, ◌+◌, ◌*◌, ◌≤◌, ◌<◌, max, length, get_or};
ghost use Rattle.policy.specs.Policy.{width};
ghost use Rattle.policy.specs.Nodes.{of_holder};
ghost use Rattle.policy.specs.Rules.{lists_of};
ghost use Rattle.prepared.specs.Prepared.{room_of, table_at};

use leaves::fill;
use planes::class_of;
use policy::Classes;
use policy::shape::class_width;

// The bits of a packed value of holder h.
fn width_of(classes: Classes, h: u8) -> usize
    ensures { result ≡ width (of_holder (lists_of classes) h) }
{
    class_width(class_of(classes, h))
}

// How many packed values of holder h are told apart.
pub fn room_of(classes: Classes, h: u8) -> usize
    ensures value { result ≡ room_of (lists_of classes) h }
    ensures result_nonzero { (0 < result) × (result ≤ 256) }
{
    if 5 <= h {
        1
    } else {
        1 << width_of(classes, h).min(8)
    }
}

// Which of the three holders a node depends on.
#[derive(Clone, Copy)]
pub struct On {
    pub lane: bool,
    pub row: bool,
    pub outer: bool,
}

// Which nodes of a formula depend on each of the three holders.
#[derive(Clone, Copy)]
pub struct Marks<'a> {
    pub lane: &'a [bool],
    pub row: &'a [bool],
    pub outer: &'a [bool],
}

impl Marks<'_> {
    ghost use Rattle.tables.specs.Tables.{marks_at, Marked};

    // Which of the three node k depends on.
    pub fn at(&self, k: usize) -> On
        requires { Marked (k + 1) self.now }
        ensures { result ≡ marks_at self.now k }
    {
        On {
            lane: self.lane[k],
            row: self.row[k],
            outer: self.outer[k],
        }
    }
}

// Where the table of node k begins, if each table has place for `room` rows.
#[tactic(auto, unfolding(prepared::specs::Prepared::table_at))]
pub fn table_at(room: usize, k: usize) -> usize
    requires { (k < 64) × (room ≤ 256) }
    ensures { result ≡ table_at room k }
{
    193 + k * room
}

// What the tables of a formula go by: the lists, the lane, the row and the outer holder, how many values of the row holder and of the outer holder are told
// apart, and for how many rows each table has place.
#[derive(Clone, Copy)]
pub struct Layout {
    pub classes: Classes,
    pub lane: u8,
    pub row: u8,
    pub outer: u8,
    pub rows: usize,
    pub outers: usize,
    pub room: usize,
    pub ghost rows_told: { rows ≡ room_of (lists_of classes) row },
    pub ghost outers_told: { outers ≡ room_of (lists_of classes) outer },
    pub ghost rows_in_range: { (0 < rows) × (rows ≤ 256) },
    pub ghost outers_in_range: { (0 < outers) × (outers ≤ 256) },
    pub ghost room_enough: { (rows ≤ room) × (outers ≤ room) × (room ≤ 256) },
}

impl Layout {
    ghost use Rattle.prepared.specs.Prepared.{lane_for, row_for, rows_for};
    ghost use Rattle.tables.specs.Tables.{Table, Tables, Marked};

    // By the lists and the holders, with place for as many rows as either of the two has values.
    pub fn new(classes: Classes, lane: u8, row: u8, outer: u8) -> Self
        ensures classes { result.classes ≡ classes }
        ensures holders { (result.lane ≡ lane) × (result.row ≡ row) × (result.outer ≡ outer) }
        ensures room { result.room ≡ max result.rows result.outers }
    {
        let rows = room_of(classes, row);
        let outers = room_of(classes, outer);
        Layout {
            classes,
            lane,
            row,
            outer,
            rows,
            outers,
            room: rows.max(outers),
        }
    }

    // The same with place for `room` rows in each table.
    pub fn with_room(mut self, room: usize) -> Self
        requires { (self.rows ≤ room) × (self.outers ≤ room) × (room ≤ 256) }
        ensures classes { result.classes ≡ self.classes }
        ensures holders { (result.lane ≡ self.lane) × (result.row ≡ self.row) × (result.outer ≡ self.outer) }
        ensures room { result.room ≡ room }
    {
        self.room = room;
        self
    }

    // Where the table of node k begins.
    pub fn table_at(&self, k: usize) -> usize
        requires { k < 64 }
        ensures { result ≡ table_at self.now.room k }
    {
        table_at(self.room, k)
    }

    // The holder whose values a comparison's bits stand for.
    #[tactic(auto, unfolding(prepared::specs::Prepared::lane_for))]
    fn lane_for(&self, on: On) -> u8
        ensures { result ≡ lane_for self.now.lane self.now.row self.now.outer on.lane on.row }
    {
        if on.lane {
            self.lane
        } else if on.row {
            self.row
        } else {
            self.outer
        }
    }

    // The holder whose values its rows stand for.
    #[tactic(auto, unfolding(prepared::specs::Prepared::row_for))]
    fn row_for(&self, on: On) -> u8
        ensures { result ≡ row_for self.now.lane self.now.row self.now.outer on.lane on.row }
    {
        if on.lane && on.row {
            self.row
        } else {
            self.outer
        }
    }

    // How many rows it has.
    #[tactic(auto, unfolding(prepared::specs::Prepared::rows_for, prepared::specs::Prepared::row_for))]
    fn rows_for(&self, on: On) -> usize
        ensures { result ≡ rows_for (lists_of self.now.classes) self.now.lane self.now.row self.now.outer on.lane on.row on.outer }
    {
        if on.lane && on.row {
            self.rows
        } else if on.outer && (on.lane || on.row) {
            self.outers
        } else {
            1
        }
    }

    // The table of a node, from row `base` on.
    fn table(&self, area: &mut [u64], base: usize, node: u32, on: On)
        requires { 4 * (base + self.now.room) ≤ length area.old }
        ensures table { Table (lists_of self.now.classes) self.now.lane self.now.row self.now.outer on.lane on.row on.outer node base area.old area.new }
        ensures area_len_unchanged { length area.new ≡ length area.old }
    {
        if node / 65536 < 5 {
            return;
        }
        fill(
            area,
            base,
            self.rows_for(on),
            self.classes,
            self.lane_for(on),
            self.row_for(on),
            node,
        );
    }

    // The tables of the n nodes of formula f.
    pub fn fill_tables(
        &self,
        area: &mut [u64],
        nodes: &[u32],
        f: usize,
        n: usize,
        marks: &Marks<'_>,
    )
        requires few { n ≤ 64 }
        requires marked { Marked n marks.now }
        requires area_long { 4 * (193 + 64 * self.now.room) ≤ length area.old }
        ensures tables { Tables (lists_of self.now.classes) self.now.lane self.now.row self.now.outer marks.now.lane.now marks.now.row.now marks.now.outer.now (λ k. get_or nodes.now (64 * f + k) 0) self.now.room n area.old area.new }
        ensures area_len_unchanged { length area.new ≡ length area.old }
    {
        for k in 0..n {
            let node = formulas::node::at(nodes, f, k);
            self.table(area, self.table_at(k), node, marks.at(k));
        }
    }
}
