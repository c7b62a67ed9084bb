// The live state's next numbers, and the number of what a call came to. The state itself, and what a call leaves, are in specs/Lent.
#![tactic(auto)]

ghost use Rattle.std.specs.Prelude.{◌≡◌};
ghost use Rattle.live.specs.Lent.{refusal_in, host_number};

use refusal::Numbered;

// The next session number and the next item number.
#[derive(Clone, Copy)]
pub struct Next {
    pub session: u64,
    pub item: u64,
}

// A live state that is only read: the cells of sessions and of items, and the next numbers.
#[derive(Clone, Copy)]
pub struct LiveState<'a> {
    pub sessions: &'a [u64],
    pub items: &'a [u64],
    pub next: Next,
}

// The number of a refusal, 0 where there is none.
#[tactic(auto, unfolding(crate::specs::Lent::host_number))]
pub fn number_of<T: Copy, E: Numbered>(outcome: Result<T, E>) -> u32
    ensures { result ≡ host_number (refusal_in E.numbered outcome) }
{
    match outcome {
        Ok(_) => 0,
        Err(refusal) => u32::from(refusal.number()),
    }
}
