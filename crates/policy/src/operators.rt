// What a node does, by its operator.
ghost use Rattle.std.specs.Prelude.{◌≡◌, ◌<◌, MatchOption};
ghost use Rattle.policy.specs.Operators.{number_of};

// How a node compares the values that its operands name.
#[derive(Clone, Copy, Debug, PartialEq, Eq)]
pub enum Comparison {
    Equal,
    Less,
    AtMost,
    Member,
    Subset,
    ProperSubset,
}

// What a node does: it is false, or true, it joins what earlier nodes say, or it compares.
#[derive(Clone, Copy, Debug, PartialEq, Eq)]
pub enum Operator {
    False,
    True,
    Not,
    And,
    Or,
    Compare(Comparison),
}

impl Operator {
    // The operator of a number, if there is one.
    pub fn of_number(number: u32) -> Option<Operator>
        ensures { MatchOption result (10 < number) (λ operator. number ≡ number_of operator) }
    {
        match number {
            0 => Some(Operator::False),
            1 => Some(Operator::True),
            2 => Some(Operator::Not),
            3 => Some(Operator::And),
            4 => Some(Operator::Or),
            5 => Some(Operator::Compare(Comparison::Equal)),
            6 => Some(Operator::Compare(Comparison::Less)),
            7 => Some(Operator::Compare(Comparison::AtMost)),
            8 => Some(Operator::Compare(Comparison::Member)),
            9 => Some(Operator::Compare(Comparison::Subset)),
            10 => Some(Operator::Compare(Comparison::ProperSubset)),
            _ => None,
        }
    }
}
