// What a formula of the rules says.
ghost use Rattle.std.specs.Prelude.{◌≡◌};
ghost use Rattle.policy.specs.Rules.{policy_of};
ghost use Rattle.allowed.specs.Allowed.{says as says_of};

use bits::get_or;
use formulas::Holders;
use policy::Rules;

// What formula f says of the holders; false where there is no such formula.
pub(super) fn says(rules: Rules, f: usize, holders: Holders) -> bool
    ensures { result ≡ says_of (policy_of rules) f holders }
{
    f < 4 + rules.permissions as usize
        && formulas::holds(
            rules.classes,
            holders,
            &rules.nodes,
            f,
            get_or(&rules.lengths, f, 0),
        )
}
