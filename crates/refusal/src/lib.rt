// Why a call refuses: one case for each of the papers' numbers.
#![tactic(auto)]

ghost use Rattle.std.specs.Prelude.{◌≡◌, ℕ};
ghost use Rattle.refusal.specs.Number.{number_of};

// A refusal, by what is wrong. The order is that of the papers' numbers, not that in which a call judges.
#[derive(Clone, Copy, Debug, PartialEq, Eq)]
pub enum Refusal {
    // A field of the file runs past its end.
    EndsEarly = 1,
    // A count of the file's head is out of range.
    Count,
    // A spare or filling bit is set, or bytes follow.
    SpareBits,
    // The size of an attribute is out of range.
    Size,
    // A class of holders is wider than 8 bits.
    Width,
    // A code is none of its attribute's values.
    Code,
    // A starting session is of an absent user.
    User,
    // A formula breaks the rules for formulas.
    Node,
    // A starting session could not have been brought about by its user.
    Start,
    // The question names what is absent, or breaks its layout.
    Question,
    // The lent rows, or the lent bytes, are too few.
    Room,
    // The kind of a row is unknown, a spare bit is set, or it closes with a value.
    Row,
    // The actor, the target or the permission is absent.
    Absent,
    // The new value is not in the lists.
    Value,
    // There is no cell for the next number.
    Cell,
    // The formula is false.
    Forbidden,
    // The leak is empty, or its last row is no grant that fits the question.
    Grant,
    // The size differs from that of an earlier attribute of the same list.
    ListSize,
    // Attributes of different lists are compared.
    Lists,
}

impl From<Refusal> for u8 {
    ghost from_gives = { λ refusal n. n ≡ number_of refusal };

    // The paper's number.
    fn from(refusal: Refusal) -> u8 {
        refusal as u8
    }
}

// What a call may refuse by: each of the papers' refusals, or a number of its own.
pub trait Numbered: Copy {
    ghost numbered: { Self → ℕ };

    // A refusal of the papers.
    fn of(refusal: Refusal) -> Self
        ensures { numbered result ≡ number_of refusal };

    // Its number.
    fn number(self) -> u8
        ensures { result ≡ numbered self };
}

impl Numbered for Refusal {
    ghost numbered = { number_of };

    fn of(refusal: Refusal) -> Refusal {
        refusal
    }

    fn number(self) -> u8 {
        u8::from(self)
    }
}

impl Numbered for u8 {
    ghost numbered = { λ n. n };

    fn of(refusal: Refusal) -> u8 {
        u8::from(refusal)
    }

    fn number(self) -> u8 {
        self
    }
}
