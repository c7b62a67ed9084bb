// The values that the holders of a formula have when it is asked.
ghost use Rattle.std.specs.Prelude.{◌≡◌, get_or as element};
ghost use Rattle.policy.specs.Rules.{values_of};
ghost use Rattle.allowed.specs.Allowed.{
  opening as opening_of,
  changing as changing_of,
  making as making_of,
  modifying as modifying_of,
  accessing as accessing_of,
};

use formulas::Holders;
use policy::Values;

// The holders of each formula: those that it can't look at have value 0.
#[tactic(auto, unfolding(crate::specs::Allowed::opening))]
pub(super) fn opening(user: u8, new: u8) -> Holders
    ensures { result ≡ opening_of user new }
{
    Holders {
        user,
        newsession: new,
        ..Holders::NONE
    }
}

#[tactic(auto, unfolding(crate::specs::Allowed::changing))]
pub(super) fn changing(user: u8, old: u8, new: u8) -> Holders
    ensures { result ≡ changing_of user old new }
{
    Holders {
        user,
        session: old,
        newsession: new,
        ..Holders::NONE
    }
}

#[tactic(auto, unfolding(crate::specs::Allowed::making))]
pub(super) fn making(session: u8, new: u8) -> Holders
    ensures { result ≡ making_of session new }
{
    Holders {
        session,
        newitem: new,
        ..Holders::NONE
    }
}

#[tactic(auto, unfolding(crate::specs::Allowed::modifying))]
pub(super) fn modifying(session: u8, old: u8, new: u8) -> Holders
    ensures { result ≡ modifying_of session old new }
{
    Holders {
        session,
        item: old,
        newitem: new,
        ..Holders::NONE
    }
}

#[tactic(auto, unfolding(crate::specs::Allowed::accessing))]
pub(super) fn accessing(session: u8, item: u8) -> Holders
    ensures { result ≡ accessing_of session item }
{
    Holders {
        session,
        item,
        ..Holders::NONE
    }
}

// The value of user u, or 0 where there is none.
pub fn user_value(users: Values, u: u8) -> u8
    ensures { result ≡ element (values_of users) u 0 }
{
    if u < users.count {
        users.value(u as usize)
    } else {
        0
    }
}
