// What a step would come to on lent cells that are only read; and doing what was judged.
#![tactic(auto)]

ghost use Rattle.std.specs.Prelude.{◌≡◌};
ghost use Rattle.policy.specs.Rules.{policy_of};
ghost use Rattle.allowed.specs.Allowed.{model_of};
ghost use Rattle.live.specs.declared.Next.{Next};
ghost use Rattle.live.specs.Lent.{done, lent_as, lent_of};
ghost use Rattle.steps.specs.Step.{step_in};
ghost use Rattle.judge.specs.Judge.{applied_to};

mod items;
mod numbers;
mod sessions;

use cells::{Kind, Row};
use live::{LiveState, Next};
use policy::Rules;
use refusal::Refusal;

// A cell that a step writes, its place and what it then holds: a session's or an item's.
#[derive(Clone, Copy)]
pub enum Change {
    Session(usize, u64),
    Item(usize, u64),
}

// What a step that is carried out leaves: the next numbers after it, and the cell that it writes, if it writes one.
#[derive(Clone, Copy)]
pub struct Judged {
    pub next: Next,
    pub change: Option<Change>,
}

// Judges the step of a row: what it would leave, or the first of its refusals 12 to 16, and then nothing would change. Any cells, next numbers
// and rules will do: they are taken as they read.
#[tactic(auto, using(steps::proofs::Laws::step_read, steps::proofs::Laws::kind_unknown), unfolding(steps::specs::Step::by_kind, live::specs::Lent::tested, live::specs::Lent::refused, refusal::specs::Number::number_of))]
pub fn judge(rules: Rules, state: &LiveState, row: u64) -> Result<Judged, Refusal>
    ensures { applied_to result (lent_of state.now) ≡ step_in (model_of (policy_of rules)) (lent_of state.now) row }
{
    let r = Row::of(row);
    if r.spare != 0 {
        return Err(Refusal::Row);
    }
    match Kind::try_from(r.kind)? {
        Kind::Open => sessions::open_session(rules, state, r),
        Kind::Close => sessions::close_session(rules, state, r),
        Kind::ChangeSession => sessions::change_session(rules, state, r),
        Kind::Make => items::make_item(rules, state, r),
        Kind::ChangeItem => items::change_item(rules, state, r),
        Kind::Access => items::access_item(rules, state, r),
    }
}

// Does what was judged, and returns the next numbers: the cell is written where its slice has it, and every other stays as it was.
#[tactic(auto, using(std::proofs::lemmas::List::set_past), unfolding(live::specs::Lent::done))]
pub fn apply(judged: Judged, sessions: &mut [u64], items: &mut [u64]) -> Next
    ensures { (next : Next) → done (lent_as sessions.new items.new result) ≡ applied_to (Ok judged) (lent_as sessions.old items.old next) }
{
    match judged.change {
        None => {}
        Some(Change::Session(place, cell)) => {
            if place < sessions.len() {
                sessions[place] = cell;
            }
        }
        Some(Change::Item(place, cell)) => {
            if place < items.len() {
                items[place] = cell;
            }
        }
    }
    judged.next
}
