// The first item value on which a session that is asked about has the permission.
#![tactic(auto)]

ghost use Rattle.std.specs.Prelude.{◌<◌};
ghost use Rattle.lanes.specs.Lanes.{lane_of};
ghost use Rattle.allowed_rows.specs.Basis.{model_by, InLists};
ghost use Rattle.allowed_rows.specs.Scratch.{Scratch};
ghost use Rattle.hits.specs.Hits.{IsFirst};

use allowed_rows::{Asked, Basis};
use search::queue::Found;

// A place of a search, and the first session value with the permission on the value there.
#[derive(Clone, Copy)]
pub struct Hit {
    pub place: usize,
    pub value: u8,
}

// The first place of the search q with a session value among `who` that has the permission on the value there. The formula is prepared in `area`.
pub fn first_hit(
    basis: &Basis,
    area: &mut [u64],
    permission: u8,
    who: [u64; 4],
    q: &Found,
) -> Option<Hit>
    requires in_lists { InLists basis.now }
    requires scratch { Scratch basis.now area.old }
    requires permission_bound { permission < basis.now.permissions }
    ensures { IsFirst (model_by basis.now) permission (lane_of who) q.now result }
{
    let access = Asked::Access(permission);
    let plan = basis.prepare(access, area);
    basis.begin(access, area, &plan, 0);
    let among = lanes::and(who, basis.sessions);
    for (place, o) in q.order[..q.len.min(256)].iter().enumerate() {
        let value = lanes::lowest(basis.allowed(access, area, &plan, 0, *o, among));
        if value < 256 {
            return Some(Hit {
                place,
                value: value as u8,
            });
        }
    }
    None
}
