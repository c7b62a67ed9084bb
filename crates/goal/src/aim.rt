// The pen before the first row: the starting sessions stand open.
ghost use Rattle.std.specs.Prelude.{◌<◌};
ghost use Rattle.policy.specs.Rules.{sessions_of};
ghost use Rattle.goal.specs.Asked.{PenReady};

use policy::Sessions;
use session_rows::Pen;

// Of sessions with the same value one of the user that is asked about, if any, is kept, and else the first.
pub fn first_pen(starting: &Sessions, asked: Option<u8>) -> Pen
    ensures ready { PenReady (sessions_of starting.now) result }
    ensures few { result.next < 256 }
{
    let mut number = [0u32; 256];
    let mut owner = [0u8; 256];
    for k in 0..starting.count as usize {
        let session = starting.session(k);
        let u = session.user;
        let v = session.value as usize;
        if number[v] == 0 || asked == Some(u) {
            number[v] = k as u32 + 1;
            owner[v] = u;
        }
    }
    Pen {
        at: 0,
        next: starting.count as u64,
        number,
        owner,
    }
}
