// Formulas are prepared: which holders each node depends on, tables of the comparisons, lists of steps.
#![tactic(auto)]

ghost use Rattle.std.specs.Prelude.{◌≡◌, ◌+◌, ◌*◌, ◌≤◌, length, get_or};
ghost use Rattle.policy.specs.Rules.{lists_of, nodes_of};
ghost use Rattle.dependence.specs.Depends.{Depends};
ghost use Rattle.prepared.specs.Prepared.{room_of, Prepared};
ghost use Rattle.tables.specs.Tables.{Marked};

mod steps;

use bitsets::store;
use dependence::depends;
use policy::Classes;
use prepared::{Plan, Roles};
use steps::Level;
use tables::{Layout, Marks};

// The 64 places of formula f, where its nodes stand first, as in rules.
fn places_of(nodes: &[u32], f: usize) -> [u32; 64]
    ensures { result ≡ nodes_of nodes.now f 64 }
{
    let mut places = [0; 64];
    for (k, node) in places.iter_mut().enumerate() {
        *node = formulas::node::at(nodes, f, k);
    }
    places
}

// Which of the n nodes of formula f depend on holder h.
fn depending(nodes: &[u32], f: usize, n: usize, h: u8) -> [bool; 64]
    requires { n ≤ 64 }
    ensures { Depends (λ k. get_or (nodes_of nodes.now f n) k 0) h n result }
{
    let mut d = [false; 64];
    depends(nodes, f, n, h as u32, &mut d);
    d
}

// A formula is prepared by its nodes, where it is known which of them depend on each of the three holders.
fn prepare_with(layout: &Layout, nodes: &[u32], marks: &Marks<'_>, area: &mut [u64]) -> Plan
    requires apart { (layout.now.lane ≡ layout.now.row → ⊥) × (layout.now.lane ≡ layout.now.outer → ⊥) × (layout.now.row ≡ layout.now.outer → ⊥) }
    requires few { length nodes.now ≤ 64 }
    requires marked { Marked (length nodes.now) marks.now }
    requires area_long { 4 * (193 + 64 * layout.now.room) ≤ length area.old }
    requires on_lane { Depends (λ k. get_or nodes.now k 0) layout.now.lane (length nodes.now) marks.now.lane.now }
    requires on_row { Depends (λ k. get_or nodes.now k 0) layout.now.row (length nodes.now) marks.now.row.now }
    requires on_outer { Depends (λ k. get_or nodes.now k 0) layout.now.outer (length nodes.now) marks.now.outer.now }
    ensures prepared { Prepared (lists_of layout.now.classes) nodes.now layout.now.lane layout.now.row layout.now.outer result area.new }
    ensures area_len_unchanged { length area.new ≡ length area.old }
{
    store(area, 0, lanes::none());
    layout.fill_tables(area, nodes, 0, nodes.len(), marks);
    Level::Outer.list(layout, nodes, marks).run(area, 0);
    Plan {
        nodes: nodes.len(),
        rows: layout.rows,
        outers: layout.outers,
        across: Level::Across.list(layout, nodes, marks),
        board: Level::Board.list(layout, nodes, marks),
        row: Level::Row.list(layout, nodes, marks),
    }
}

// Formula f, whose n nodes stand among the lent ones as in rules, is prepared for a lane holder, a row holder and an outer holder.
pub fn prepare(
    classes: Classes,
    nodes: &[u32],
    f: usize,
    n: usize,
    roles: Roles,
    area: &mut [u64],
) -> Plan
    requires few { n ≤ 64 }
    requires area_long { (4 * (193 + 64 * room_of (lists_of classes) roles.row) ≤ length area.old) × (4 * (193 + 64 * room_of (lists_of classes) roles.outer) ≤ length area.old) }
    ensures prepared { Prepared (lists_of classes) (nodes_of nodes.now f n) roles.lane roles.row roles.outer result area.new }
    ensures area_len_unchanged { length area.new ≡ length area.old }
{
    let layout = Layout::new(classes, roles.lane, roles.row, roles.outer);
    let lane = depending(nodes, f, n, layout.lane);
    let row = depending(nodes, f, n, layout.row);
    let outer = depending(nodes, f, n, layout.outer);
    let marks = Marks {
        lane: &lane,
        row: &row,
        outer: &outer,
    };
    let places = places_of(nodes, f);
    prepare_with(&layout, &places[..n], &marks, area)
}
