// The kinds of a step.
ghost use Rattle.cells.specs.Kind.{KindOf};

use super::row::Row;
use refusal::Refusal;

// What a step does. The order is that of the kinds' numbers.
#[derive(Clone, Copy, Debug, PartialEq, Eq)]
pub enum Kind {
    Open = 1,
    Close,
    ChangeSession,
    Make,
    ChangeItem,
    Access,
}

impl TryFrom<u64> for Kind {
    type Error = Refusal;

    ghost try_from_gives = { KindOf };

    // The kind with a number.
    fn try_from(number: u64) -> Result<Self, Refusal> {
        match number {
            Row::OPEN => Ok(Kind::Open),
            Row::CLOSE => Ok(Kind::Close),
            Row::CHANGE_SESSION => Ok(Kind::ChangeSession),
            Row::MAKE => Ok(Kind::Make),
            Row::CHANGE_ITEM => Ok(Kind::ChangeItem),
            Row::ACCESS => Ok(Kind::Access),
            _ => Err(Refusal::Row),
        }
    }
}
