// What rules allow, asked for one value. The meaning is the model in specs/Allowed; crates above know formulas only through it.
#![tactic(auto)]

ghost use Rattle.std.specs.Prelude.{◌≡◌};
ghost use Rattle.policy.specs.Rules.{policy_of};
ghost use Rattle.allowed.specs.Allowed.{model_of};

mod formula;
pub mod holders;

use formula::says;
use holders::{accessing, changing, making, modifying, opening, user_value};
use policy::Rules;

// Whether the formula lets user u open a session with value v.
pub fn may_open(rules: Rules, u: u8, v: u8) -> bool
    ensures { result ≡ (model_of (policy_of rules)).may_open u v }
{
    says(rules, 0, opening(user_value(rules.users, u), v))
}

// Whether the formula lets user u change a session from value v to value w.
pub fn may_change(rules: Rules, u: u8, v: u8, w: u8) -> bool
    ensures { result ≡ (model_of (policy_of rules)).may_change u v w }
{
    says(rules, 1, changing(user_value(rules.users, u), v, w))
}

// Whether the formula lets a session with value v make an item with value o.
pub fn may_make(rules: Rules, v: u8, o: u8) -> bool
    ensures { result ≡ (model_of (policy_of rules)).may_make v o }
{
    says(rules, 2, making(v, o))
}

// Whether the formula lets a session with value v change an item from value o to value n.
pub fn may_modify(rules: Rules, v: u8, o: u8, n: u8) -> bool
    ensures { result ≡ (model_of (policy_of rules)).may_modify v o n }
{
    says(rules, 3, modifying(v, o, n))
}

// Whether the formula gives a session with value v permission p on an item with value o.
pub fn may_access(rules: Rules, p: u8, v: u8, o: u8) -> bool
    ensures { result ≡ (model_of (policy_of rules)).may_access p v o }
{
    says(rules, 4 + p as usize, accessing(v, o))
}
