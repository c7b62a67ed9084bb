// Starting: the cells of a file's starting sessions and items are written. What starting does is in specs/Start, how cells are coded in
// docs/CELLS.md.
#![tactic(auto)]

ghost use Rattle.std.specs.Prelude.{◌≡◌};
ghost use Rattle.std.specs.Result.{result_unwrap_or};
ghost use Rattle.policy.specs.Rules.{policy_of};
ghost use Rattle.rules.specs.Answers.{reading, rules as rules_of};
ghost use Rattle.live.specs.Lent.{leaves};
ghost use Rattle.starting.specs.Start.{started, nothing_given, start_rules};

mod put;

use live::Next;
use policy::{Rules, no_rules};
use refusal::Refusal;
use rules::read_rules;

// What starting came to: the next numbers, or why it is refused; and the file's rules, or those of no file where it can't be read.
#[derive(Clone, Copy)]
pub struct Started {
    pub outcome: Result<Next, Refusal>,
    pub rules: Rules,
}

// Starts: writes the cells of the file's starting sessions and items and no other, or gives the file's number, then 15 where they
// outnumber the cells, and writes nothing.
#[tactic(auto, unfolding(crate::specs::Start::started, crate::specs::Start::start_rules, rules::specs::Answers::answer_of, live::specs::Lent::refused))]
pub fn start(file: &[u8], sessions: &mut [u64], items: &mut [u64]) -> Started
    ensures after { leaves result.outcome (result_unwrap_or result.outcome nothing_given) sessions.new items.new ≡ started (reading file.now) sessions.old items.old }
    ensures rules_value { policy_of result.rules ≡ start_rules (reading file.now) }
{
    match read_rules(file).answer {
        Ok(rules) => Started {
            outcome: start_with(rules, sessions, items),
            rules,
        },
        Err(refusal) => Started {
            outcome: Err(refusal),
            rules: no_rules(),
        },
    }
}

// Starts with rules that were read before: as `start`, without the file's number.
#[tactic(auto, using(crate::proofs::StartLaws::sessions_length, policy::proofs::Laws::values_length), unfolding(crate::specs::Start::started, crate::specs::Start::nothing_given, policy::specs::Rules::policy_of, live::specs::Lent::tested, live::specs::Lent::refused, live::specs::Lent::done, refusal::specs::Number::number_of))]
pub fn start_with(rules: Rules, sessions: &mut [u64], items: &mut [u64]) -> Result<Next, Refusal>
    ensures { leaves result (result_unwrap_or result nothing_given) sessions.new items.new ≡ started (rules_of (policy_of rules)) sessions.old items.old }
{
    if sessions.len() < rules.sessions.count as usize || items.len() < rules.items.count as usize {
        return Err(Refusal::Cell);
    }
    put::put_sessions(sessions, rules.sessions);
    put::put_items(items, rules.items);
    Ok(Next {
        session: rules.sessions.count as u64,
        item: rules.items.count as u64,
    })
}
