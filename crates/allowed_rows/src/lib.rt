// What rules allow, asked of prepared formulas: for one value at a time of a row holder, and all values of a lane holder at once.
#![tactic(auto)]

ghost use Rattle.std.specs.Prelude.{◌≡◌, ◌&&◌, ℕ, ◌+◌, ◌<◌, ltb, length};
ghost use Rattle.lanes.specs.Lanes.{lane_of, Lanes};
ghost use Rattle.policy.specs.Rules.{lists_of};
ghost use Rattle.alike.specs.Alike.{OneOfEach};
ghost use Rattle.allowed_rows.specs.Asked.{formula_of, lane_holder, row_holder, outer_holder, outer_value, nodes_at, allows, FormulaPrepared, PreparedFor, ReadyFor, OpenPrepared};
ghost use Rattle.allowed_rows.specs.Basis.{BasisOf, model_by};
ghost use Rattle.allowed_rows.specs.Scratch.{Scratch};

use allowed::holders::user_value;
use bits::get_or;
use policy::{Classes, Rules, Values};
use prepared::{Plan, Roles};

// What is asked of the rules' formulas: who may open a session with a value, change one, make an item, change one, or has a permission, by its number.
#[derive(Clone, Copy)]
pub enum Asked {
    Open,
    Change,
    Make,
    Modify,
    Access(u8),
}

impl Asked {
    // The place of its formula among those of the rules.
    fn formula(self) -> usize
        ensures { result ≡ formula_of self }
    {
        match self {
            Asked::Open => 0,
            Asked::Change => 1,
            Asked::Make => 2,
            Asked::Modify => 3,
            Asked::Access(p) => 4 + p as usize,
        }
    }

    // Whose values are asked about at once, whose are gone through one by one, and whose stays for a while.
    fn roles(self) -> Roles
        ensures { (result.lane ≡ lane_holder self) × (result.row ≡ row_holder self) × (result.outer ≡ outer_holder self) }
    {
        match self {
            Asked::Open => Roles::new(2, 8, 0),
            Asked::Change => Roles::new(2, 1, 0),
            Asked::Make => Roles::new(1, 4, 9),
            Asked::Modify => Roles::new(4, 1, 3),
            Asked::Access(_) => Roles::new(1, 3, 9),
        }
    }
}

// What formulas are asked by: the lists, the users' values, how many permissions there are, how many nodes each formula has, the nodes, and as sets
// the values in the lists of sessions and of items.
#[derive(Clone, Copy)]
pub struct Basis<'a> {
    pub classes: Classes,
    pub users: Values,
    pub permissions: u8,
    pub lengths: [u8; 12],
    pub nodes: &'a [u32],
    pub sessions: [u64; 4],
    pub items: [u64; 4],
}

// What the formulas of the rules are asked by.
pub fn basis_of(rules: &Rules) -> Basis<'_>
    ensures { BasisOf rules.now result }
{
    Basis {
        classes: rules.classes,
        users: rules.users,
        permissions: rules.permissions,
        lengths: rules.lengths,
        nodes: &rules.nodes,
        sessions: planes::values_of(rules.classes.session),
        items: planes::values_of(rules.classes.item),
    }
}

impl Basis<'_> {
    // Formula f is prepared for a lane holder, a row holder and an outer holder.
    pub fn prepare_formula(&self, f: usize, roles: Roles, area: &mut [u64]) -> Plan
        requires formula_bound { f < 4 + self.now.permissions }
        requires scratch { Scratch self.now area.old }
        ensures prepared { FormulaPrepared self.now f roles.lane roles.row roles.outer result area.new }
        ensures area_len_unchanged { length area.new ≡ length area.old }
    {
        let n = get_or(&self.lengths, f, 0) as usize;
        preparing::prepare(self.classes, self.nodes, f, n, roles, area)
    }

    // The formula of what is asked is prepared.
    pub fn prepare(&self, asked: Asked, area: &mut [u64]) -> Plan
        requires formula_bound { formula_of asked < 4 + self.now.permissions }
        requires scratch { Scratch self.now area.old }
        ensures prepared_for { PreparedFor self.now asked result area.new }
        ensures area_len_unchanged { length area.new ≡ length area.old }
    {
        self.prepare_formula(asked.formula(), asked.roles(), area)
    }

    // The value of the outer holder: of user `outer`, of an item with the value `outer`, or of none.
    fn outer_value(&self, asked: Asked, outer: u8) -> u8
        ensures { result ≡ outer_value self.now asked outer }
    {
        match asked {
            Asked::Open | Asked::Change => user_value(self.users, outer),
            Asked::Modify => outer,
            Asked::Make | Asked::Access(_) => 0,
        }
    }

    // What is allowed is worked out as far as user `outer` decides it, of an opening or of a change of sessions; the value `outer` of the item, of a change
    // of items; of all else as far as no item's value does.
    pub fn begin(&self, asked: Asked, area: &mut [u64], plan: &Plan, outer: u8)
        requires { PreparedFor self.now asked plan.now area.old }
        ensures ready { ReadyFor self.now asked plan.now outer area.new }
        ensures area_len_unchanged { length area.new ≡ length area.old }
    {
        plan.begin(area, self.outer_value(asked, outer) as usize);
    }

    // Of the values that are asked about, those that are allowed with the value `row`: sessions' new values by the value before, the values of sessions
    // that may make or have access to an item by the item's value, items' new values by the session's value. Of an opening `row` makes no difference.
    pub fn allowed(
        &self,
        asked: Asked,
        area: &mut [u64],
        plan: &Plan,
        outer: u8,
        row: u8,
        among: [u64; 4],
    ) -> [u64; 4]
        requires formula_bound { formula_of asked < 4 + self.now.permissions }
        requires ready { ReadyFor self.now asked plan.now outer area.old }
        ensures lanes { Lanes (λ (v : ℕ). lane_of among v && allows self.now asked outer row v) result }
        ensures still_ready { ReadyFor self.now asked plan.now outer area.new }
        ensures area_len_unchanged { length area.new ≡ length area.old }
    {
        lanes::and(among, plan.row_at(area, row as usize))
    }

    // Of the values that are asked about, those that user u may open a session with.
    pub fn opened_with(&self, area: &mut [u64], plan: &Plan, u: u8, among: [u64; 4]) -> [u64; 4]
        requires { OpenPrepared self.now plan.now area.old }
        ensures lanes { Lanes (λ (v : ℕ). (lane_of among v && (ltb u (model_by self.now).users && (model_by self.now).may_open u v))) result }
        ensures open_prepared { OpenPrepared self.now plan.now area.new }
        ensures area_len_unchanged { length area.new ≡ length area.old }
    {
        if self.users.count <= u {
            return lanes::none();
        }
        self.begin(Asked::Open, area, plan, u);
        self.allowed(Asked::Open, area, plan, u, 0, among)
    }

    // Of the session values, one of each kind that the formula for changes of items tells apart: the last.
    pub fn one_of_each(&self, among: [u64; 4]) -> [u64; 4]
        ensures { OneOfEach (lists_of self.now.classes) (nodes_at self.now 3) 1 among result }
    {
        let n = get_or(&self.lengths, 3, 0) as usize;
        alike::one_of_each(self.classes, self.nodes, 3, n, 1, among)
    }
}
