// Rules in memory, and what each of their parts may hold. The meaning of the rule file is in specs/.
#![tactic(auto)]

ghost use Rattle.std.specs.Prelude.{◌≡◌, get_or};
ghost use Rattle.policy.specs.Rules.{as_attr, attr_at, as_session, session_at, no_rules};

pub mod nodes;
pub mod operators;
pub mod shape;

use bits::get_or;

// An attribute: its kind (0 atomic, 1 a set), the size of its list of values, and the list's number.
#[derive(Clone, Copy)]
pub struct Attribute {
    pub kind: u8,
    pub size: u8,
    pub list: u8,
}

impl Attribute {
    // What stands where there is no attribute.
    pub const NONE: Attribute = Attribute {
        kind: 0,
        size: 0,
        list: 0,
    };
}

// The attributes of one class of holders, count of them.
#[derive(Clone, Copy)]
pub struct Class {
    pub count: u8,
    pub attributes: [Attribute; 8],
}

impl Class {
    // Attribute k; past the end, none.
    #[tactic(auto, unfolding(crate::specs::Rules::attr_at))]
    pub fn attribute(&self, k: usize) -> Attribute
        ensures { as_attr result ≡ attr_at self.now k }
    {
        get_or(&self.attributes, k, Attribute::NONE)
    }
}

// The attributes of users, sessions and items.
#[derive(Clone, Copy)]
pub struct Classes {
    pub user: Class,
    pub session: Class,
    pub item: Class,
}

// Holders' values, count of them.
#[derive(Clone, Copy)]
pub struct Values {
    pub count: u8,
    pub values: [u8; 32],
}

impl Values {
    // Holder k's value; past the end, 0.
    pub fn value(&self, k: usize) -> u8
        ensures { result ≡ get_or self.now.values k 0 }
    {
        get_or(&self.values, k, 0)
    }
}

// A starting session: its user and its value.
#[derive(Clone, Copy)]
pub struct Session {
    pub user: u8,
    pub value: u8,
}

impl Session {
    // What stands where there is no session.
    pub const NONE: Session = Session { user: 0, value: 0 };
}

// Starting sessions, count of them.
#[derive(Clone, Copy)]
pub struct Sessions {
    pub count: u8,
    pub sessions: [Session; 32],
}

impl Sessions {
    // Starting session k; past the end, user 0 with the value 0.
    #[tactic(auto, unfolding(crate::specs::Rules::session_at))]
    pub fn session(&self, k: usize) -> Session
        ensures { as_session result ≡ session_at self.now k }
    {
        get_or(&self.sessions, k, Session::NONE)
    }
}

// Rules in memory. Every field is a plain number that may be out of range; places that no count covers don't matter.
// Formula f (open session, change session, make item, change item, then the permissions) has lengths[f] nodes;
// node i is nodes[64 * f + i], operator * 65536 + a * 256 + b.
#[derive(Clone, Copy)]
pub struct Rules {
    pub classes: Classes,
    pub users: Values,
    pub sessions: Sessions,
    pub items: Values,
    pub permissions: u8,
    pub lengths: [u8; 12],
    pub nodes: [u32; 768],
}

// The rules of no file: every count and every place is 0.
#[tactic(auto, unfolding(crate::specs::Rules::no_rules))]
pub fn no_rules() -> Rules
    ensures { result ≡ no_rules }
{
    let none = Class {
        count: 0,
        attributes: [Attribute::NONE; 8],
    };
    let empty = Values {
        count: 0,
        values: [0; 32],
    };
    let classes = Classes {
        user: none,
        session: none,
        item: none,
    };
    let sessions = Sessions {
        count: 0,
        sessions: [Session::NONE; 32],
    };
    Rules {
        classes,
        users: empty,
        sessions,
        items: empty,
        permissions: 0,
        lengths: [0; 12],
        nodes: [0; 768],
    }
}
