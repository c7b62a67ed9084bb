// The steps of a formula's nodes, listed.
ghost use Rattle.std.specs.Prelude.{◌≡◌, ◌+◌, ◌≤◌, ◌<◌, length};
ghost use Rattle.policy.specs.Nodes.{op_of, first_of, second_of};
ghost use Rattle.bitsets.specs.Steps.{step_of};
ghost use Rattle.prepared.specs.Level.{ref_of, node_step};
ghost use Rattle.prepared.specs.StepList.{listed};
ghost use Rattle.tables.specs.Tables.{Marked};
ghost use Rattle.preparing.specs.Levels.{chosen, way_of, level_steps};

use prepared::StepList;
use tables::{Layout, Marks, On};

// The four lists of steps: on the outer board those of nodes that depend on neither the lane holder nor the row holder, across those of nodes that don't
// depend on the lane holder, and of the board and of a row those of nodes that don't, or do, depend on the row holder.
#[derive(Clone, Copy)]
pub(super) enum Level {
    Outer,
    Across,
    Board,
    Row,
}

// How the step of a node is made: the first row of the level's board, and of the board that has the row of a node whose bits don't differ; whether its bits
// differ, and whether a comparison's row is told by the index.
#[derive(Clone, Copy)]
struct Way {
    own: u64,
    from: u64,
    differ: bool,
    indexed: bool,
}

// The row of node j, if it stands before node k, or row 0.
#[tactic(auto, unfolding(prepared::specs::Level::ref_of))]
fn row_of(own: u64, j: usize, k: usize) -> u64
    requires { (own + 64 ≤ 65536) × (k ≤ 64) }
    ensures { result ≡ ref_of own j k }
{
    if j < k { own + j as u64 } else { 0 }
}

// The step as one number.
#[tactic(auto, unfolding(bitsets::specs::Steps::step_of))]
fn step(does: u64, row: u64, left: u64, right: u64) -> u64
    requires { (does < 7) × (row < 65536) × (left < 65536) × (right < 65536) }
    ensures { result ≡ step_of does row left right }
{
    does * 281474976710656 + row * 4294967296 + left * 65536 + right
}

// The step of a node that joins earlier ones.
fn join_step(own: u64, node: u32, k: usize) -> u64
    requires { (op_of node < 5) × (k < 64) × (own + 64 ≤ 65536) }
    ensures { result ≡ step_of (op_of node) (own + k) (ref_of own (first_of node) k) (ref_of own (second_of node) k) }
{
    let a = row_of(own, (node / 256 % 256) as usize, k);
    let b = row_of(own, (node % 256) as usize, k);
    step((node / 65536) as u64, own + k as u64, a, b)
}

impl Way {
    // The step of node k, whose table begins at `base`.
    #[tactic(auto, unfolding(prepared::specs::Level::node_step, policy::specs::Nodes::op_of))]
    fn step(self, node: u32, k: usize, base: u64) -> u64
        requires { (k < 64) × (self.own + 64 ≤ 65536) × (self.from + 64 ≤ 65536) × (base < 65536) }
        ensures { result ≡ node_step self.own self.from self.differ self.indexed node k base }
    {
        let row = self.own + k as u64;
        if !self.differ {
            step(5, row, self.from + k as u64, 0)
        } else if node / 65536 < 5 {
            join_step(self.own, node, k)
        } else if self.indexed {
            step(6, row, base, 0)
        } else {
            step(4, row, base, base)
        }
    }
}

impl Level {
    // Whether the list has a step for a node that depends on these holders.
    fn chosen(self, on: On) -> bool
        ensures { result ≡ chosen self on }
    {
        match self {
            Level::Outer => !(on.lane || on.row),
            Level::Across => !on.lane,
            Level::Board => !on.row,
            Level::Row => on.row,
        }
    }

    // How that step is made.
    fn way_of(self, on: On) -> Way
        ensures value { result ≡ way_of self on }
        ensures on_boards { (result.own + 64 ≤ 193) × (result.from + 64 ≤ 193) }
    {
        match self {
            Level::Outer => Way {
                own: 129,
                from: 65,
                differ: true,
                indexed: false,
            },
            Level::Across => Way {
                own: 65,
                from: 129,
                differ: on.row,
                indexed: on.outer,
            },
            Level::Board => Way {
                own: 1,
                from: 129,
                differ: on.lane,
                indexed: on.outer,
            },
            Level::Row => Way {
                own: 1,
                from: 65,
                differ: on.lane,
                indexed: on.row,
            },
        }
    }

    // The list.
    pub(super) fn list(self, layout: &Layout, nodes: &[u32], marks: &Marks<'_>) -> StepList
        requires few { length nodes.now ≤ 64 }
        requires marked { Marked (length nodes.now) marks.now }
        ensures { listed result ≡ level_steps self nodes.now marks.now layout.now.room (length nodes.now) }
    {
        let mut list = StepList::new();
        for (k, node) in nodes.iter().enumerate() {
            let on = marks.at(k);
            if self.chosen(on) {
                list.push(self.way_of(on).step(*node, k, layout.table_at(k) as u64));
            }
        }
        list
    }
}
