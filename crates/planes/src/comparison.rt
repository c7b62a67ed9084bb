// Comparisons of sets in 64 lanes at once.
ghost use Rattle.std.specs.Prelude.{◌≡◌, ◌<◌, ◌⊎◌, MatchOption};
ghost use Rattle.planes.specs.Word.{Told, compared_in};
ghost use Rattle.planes.specs.SetComparison.{operator};

use super::operand::Operand;
use super::set::{member, subset};

// What two operands are compared by where they are sets: the operators 8, 9 and 10 of a node.
#[derive(Clone, Copy)]
pub enum SetComparison {
    Member,
    Subset,
    ProperSubset,
}

impl SetComparison {
    // The comparison of an operator's number, if it is one of sets.
    #[tactic(auto, unfolding(crate::specs::SetComparison::operator))]
    pub fn of(op: u32) -> Option<SetComparison>
        ensures { MatchOption result ((op < 8) ⊎ (10 < op)) (λ s. operator s ≡ op) }
    {
        match op {
            8 => Some(SetComparison::Member),
            9 => Some(SetComparison::Subset),
            10 => Some(SetComparison::ProperSubset),
            _ => None,
        }
    }
}

// Where a comparison of sets holds.
pub(super) fn compare(planes: &[u64; 8], by: SetComparison, x: Operand, y: Operand) -> u64
    ensures { Told planes.now (compared_in (operator by) x y) result }
{
    match by {
        SetComparison::Member => member(planes, x, y),
        SetComparison::Subset => subset(planes, x, y),
        SetComparison::ProperSubset => subset(planes, x, y) & !subset(planes, y, x),
    }
}
