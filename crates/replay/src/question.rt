// The question: three bytes.
ghost use Rattle.std.specs.Prelude.{◌≡◌};
ghost use Rattle.policy.specs.Rules.{policy_of};
ghost use Rattle.replay.specs.Question.{parts_of, asked_who, asked_item, who_among, which_among, asks as asks_of};

use bits::get_or;
use policy::Rules;

// Who is asked about: a starting session, a user's sessions, or any session.
#[derive(Clone, Copy, Debug, PartialEq, Eq)]
pub enum Who {
    Session(u8),
    User(u8),
    Anyone,
}

// Which item is asked about: a starting item, or any.
#[derive(Clone, Copy, Debug, PartialEq, Eq)]
pub enum Which {
    Item(u8),
    Anything,
}

// The parts of a question, any numbers; the two spare fields are added up.
#[derive(Clone, Copy)]
pub struct Question {
    pub whokind: u8,
    pub who: u8,
    pub itemkind: u8,
    pub item: u8,
    pub permission: u8,
    pub spares: u8,
}

impl Question {
    // A question takes so many bytes.
    pub const BYTES: usize = 3;
    // The widths of the fields that end a byte: who, the item, the spare bits after the permission.
    pub const WHO_BITS: u8 = 6;

    pub const ITEM_BITS: u8 = 6;

    pub const SPARE_BITS: u8 = 4;
    // A spare bit stands between the item and its kind.
    pub const ITEM_KIND_AT: u8 = Self::ITEM_BITS + 1;
    // So many numbers fit each field that ends a byte.
    pub const WHOS: u8 = 1 << Self::WHO_BITS;

    pub const ITEMS: u8 = 1 << Self::ITEM_BITS;

    pub const SPARES: u8 = 1 << Self::SPARE_BITS;
    // A class of holders is at most so many bits wide, and has at most so many values.
    pub const WIDTH: usize = 8;

    pub const VALUES: usize = 1 << Self::WIDTH;
    // At that width a leak takes at most so many rows.
    pub const ROWS: usize = Self::VALUES + Self::VALUES * (Self::VALUES + 1) + 1;
    // The kinds of who and of items.
    pub const SESSION: u8 = 0;

    pub const USER: u8 = 1;

    pub const ANYONE: u8 = 2;

    pub const ITEM: u8 = 0;

    pub const ANYTHING: u8 = 1;

    // The parts of the bytes; those past the end count as 0.
    #[tactic(auto, unfolding(crate::specs::Question::parts_of))]
    pub fn of(bytes: &[u8]) -> Self
        ensures { result ≡ parts_of bytes.now }
    {
        let a = get_or(bytes, 0, 0);
        let b = get_or(bytes, 1, 0);
        let c = get_or(bytes, 2, 0);
        Self {
            whokind: a >> Self::WHO_BITS,
            who: a % Self::WHOS,
            itemkind: b >> Self::ITEM_KIND_AT,
            item: b % Self::ITEMS,
            permission: c >> Self::SPARE_BITS,
            spares: (b >> Self::ITEM_BITS) % 2 + c % Self::SPARES,
        }
    }

    // Who is asked about, or nothing, where the kind is unknown.
    pub fn asked_who(self) -> Option<Who>
        ensures { result ≡ asked_who self }
    {
        match self.whokind {
            Self::SESSION => Some(Who::Session(self.who)),
            Self::USER => Some(Who::User(self.who)),
            Self::ANYONE => Some(Who::Anyone),
            _ => None,
        }
    }

    // Which item is asked about, or nothing, where the kind is unknown.
    pub fn asked_item(self) -> Option<Which>
        ensures { result ≡ asked_item self }
    {
        match self.itemkind {
            Self::ITEM => Some(Which::Item(self.item)),
            Self::ANYTHING => Some(Which::Anything),
            _ => None,
        }
    }
}

// Whether who is asked about is there, among so many starting sessions and users.
#[tactic(auto, unfolding(crate::specs::Question::who_among))]
fn who_there(sessions: u8, users: u8, q: Question) -> bool
    ensures { result ≡ who_among sessions users q }
{
    match q.asked_who() {
        Some(Who::Session(session)) => session < sessions,
        Some(Who::User(user)) => user < users,
        Some(Who::Anyone) => q.who == 0,
        None => false,
    }
}

// Whether the item that is asked about is there, among so many starting ones.
#[tactic(auto, unfolding(crate::specs::Question::which_among))]
fn which_there(items: u8, q: Question) -> bool
    ensures { result ≡ which_among items q }
{
    match q.asked_item() {
        Some(Which::Item(item)) => item < items,
        Some(Which::Anything) => q.item == 0,
        None => false,
    }
}

// Whether the bytes ask something of the rules: three of them, of the layout, and naming what is there.
#[tactic(auto, using(policy::proofs::Laws::values_length, starting::proofs::StartLaws::sessions_length), unfolding(crate::specs::Question::asks, crate::specs::Question::parts_ask, policy::specs::Rules::policy_of))]
pub fn asks(rules: Rules, bytes: &[u8]) -> bool
    ensures { result ≡ asks_of (policy_of rules) bytes.now }
{
    let q = Question::of(bytes);
    bytes.len() == Question::BYTES
        && q.spares == 0
        && who_there(rules.sessions.count, rules.users.count, q)
        && which_there(rules.items.count, q)
        && q.permission < rules.permissions
}
