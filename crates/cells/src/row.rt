// A step as a row of 64 bits.
ghost use Rattle.std.specs.Prelude.{◌≡◌};
ghost use Rattle.cells.specs.Row.{parts_of, bits_of};

use super::kind::Kind;

// The parts of a row, any numbers.
#[derive(Clone, Copy)]
pub struct Row {
    pub kind: u64,
    pub actor: u64,
    pub target: u64,
    pub value: u64,
    pub spare: u64,
}

impl Row {
    // The numbers of the kinds.
    pub const OPEN: u64 = Kind::Open as u64;

    pub const CLOSE: u64 = Kind::Close as u64;

    pub const CHANGE_SESSION: u64 = Kind::ChangeSession as u64;

    pub const MAKE: u64 = Kind::Make as u64;

    pub const CHANGE_ITEM: u64 = Kind::ChangeItem as u64;

    pub const ACCESS: u64 = Kind::Access as u64;
    // The fields' widths, most significant first.
    pub const KIND_BITS: u64 = 4;

    pub const ACTOR_BITS: u64 = 20;

    pub const TARGET_BITS: u64 = 20;

    pub const VALUE_BITS: u64 = 12;

    pub const SPARE_BITS: u64 = 8;
    // So many bits follow each field.
    pub const VALUE_AT: u64 = Self::SPARE_BITS;

    pub const TARGET_AT: u64 = Self::VALUE_AT + Self::VALUE_BITS;

    pub const ACTOR_AT: u64 = Self::TARGET_AT + Self::TARGET_BITS;

    pub const KIND_AT: u64 = Self::ACTOR_AT + Self::ACTOR_BITS;
    // The bits of each field, where it is the last.
    pub const KIND_MASK: u64 = (1 << Self::KIND_BITS) - 1;

    pub const ACTOR_MASK: u64 = (1 << Self::ACTOR_BITS) - 1;

    pub const TARGET_MASK: u64 = (1 << Self::TARGET_BITS) - 1;

    pub const VALUE_MASK: u64 = (1 << Self::VALUE_BITS) - 1;

    pub const SPARE_MASK: u64 = (1 << Self::SPARE_BITS) - 1;
    // So many numbers of sessions, and of items, can be given.
    pub const NUMBERS: u64 = 1 << Self::TARGET_BITS;

    // The row of a step.
    pub fn new(kind: u64, actor: u64, target: u64, value: u64) -> Self
        ensures { result ≡ record { kind = kind; actor = actor; target = target; value = value; spare = 0 } }
    {
        Self {
            kind,
            actor,
            target,
            value,
            spare: 0,
        }
    }

    // The parts of a row.
    pub fn of(x: u64) -> Self
        ensures { result ≡ parts_of x }
    {
        Self {
            kind: x >> Self::KIND_AT,
            actor: (x >> Self::ACTOR_AT) & Self::ACTOR_MASK,
            target: (x >> Self::TARGET_AT) & Self::TARGET_MASK,
            value: (x >> Self::VALUE_AT) & Self::VALUE_MASK,
            spare: x & Self::SPARE_MASK,
        }
    }

    // The 64 bits of a row, each part cut to its field.
    pub fn bits(row: Row) -> u64
        ensures { result ≡ bits_of row }
    {
        ((row.kind & Self::KIND_MASK) << Self::KIND_AT)
            + ((row.actor & Self::ACTOR_MASK) << Self::ACTOR_AT)
            + ((row.target & Self::TARGET_MASK) << Self::TARGET_AT)
            + ((row.value & Self::VALUE_MASK) << Self::VALUE_AT)
            + (row.spare & Self::SPARE_MASK)
    }
}
