// Writing rules, part by part in the file's order. Each part judges its fields and stores them, and gives the place after them, in bits, or the
// refusal of the first field that is refused, which ends the writing, with the place after those before it. A field that has no room is judged
// and not stored.
#![tactic(auto)]

ghost use Rattle.std.specs.Prelude.{◌≡◌, ◌^◌, ◌<◌};
ghost use Rattle.format.specs.Format.{Format};
ghost use Rattle.format.specs.Steps.{place_of, Stores};
ghost use Rattle.policy.specs.File.{policy_format};
ghost use Rattle.policy.specs.Rules.{policy_of};

mod formulas;
mod values;

use format::Stopped;
use formulas::put_formulas;
use policy::Rules;
use refusal::Refusal;
use values::{put_sessions, put_values};
use writer_head::lists::put_classes;
use writer_head::{Counts, put_counts};

// The whole file up to its filling bits.
pub fn put_policy(out: &mut [u8], rules: Rules) -> Result<usize, Stopped<Refusal>>
    ensures stores { Stores policy_format (policy_of rules) out.old out.new 0 result }
    ensures pos_bound { place_of result < 2 ^ 36 }
{
    let classes = rules.classes;
    let users = rules.users;
    let sessions = rules.sessions;
    let items = rules.items;
    let counts = Counts {
        user: classes.user.count,
        session: classes.session.count,
        item: classes.item.count,
        users: users.count,
        sessions: sessions.count,
        items: items.count,
        permissions: rules.permissions,
    };
    let at = put_counts(out, 0, counts)?;
    let at = put_classes(out, at, classes)?;
    let at = put_values(out, at, classes.user, users)?;
    let at = put_sessions(out, at, classes.session, users.count, sessions)?;
    let at = put_values(out, at, classes.item, items)?;
    put_formulas(
        out,
        at,
        classes,
        rules.permissions,
        &rules.lengths,
        &rules.nodes,
    )
}
