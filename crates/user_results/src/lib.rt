// What the searches of all users' sessions say together.
#![tactic(auto)]

ghost use Rattle.std.specs.Prelude.{◌≡◌, ◌&&◌, ◌||◌, cond, ℕ, ◌+◌, ◌≤◌, ◌<◌, eqb};
ghost use Rattle.bits.specs.Packed.{tab};
ghost use Rattle.lanes.specs.Lanes.{lane_of, Lanes};
ghost use Rattle.policy.specs.Rules.{sessions_of};
ghost use Rattle.user_results.specs.Found.{user_found, any_has, Names, name_after, found_pairs, all_found};

use policy::Sessions;
use search::queue::Found;

// The session values that some user's session can have.
pub fn helpers(users: &[Found; 16]) -> [u64; 4]
    ensures { Lanes (any_has users.now) result }
{
    let mut all = lanes::none();
    for q in users {
        let more = lanes::or(all, q.seen);
        all = more;
    }
    all
}

// Who is named for a value: the user u where it can have the value and none is named yet, or u is asked about.
fn name_one(was: u8, has: bool, u: u8, asked: bool) -> u8
    requires { u < 255 }
    ensures { result ≡ cond (has && (eqb was 0 || asked)) (u + 1) was }
{
    if has && (was == 0 || asked) {
        u + 1
    } else {
        was
    }
}

// The user u is named for each value among `seen` for which none is named yet, or where u is asked about.
fn name_user(by: &mut [u8; 256], seen: [u64; 4], u: u8, asked: bool)
    requires { u < 255 }
    ensures { by.new ≡ tab (name_after by.old seen u asked) 0 256 }
{
    for (v, name) in by.iter_mut().enumerate() {
        *name = name_one(*name, lanes::has(seen, v), u, asked);
    }
}

// For each session value that some user's session can have the number plus 1 of such a user: the one that is asked about, if any, where it can.
pub fn name_users(users: &[Found; 16], asked: Option<u8>) -> [u8; 256]
    ensures { Names users.now result }
{
    let mut by = [0u8; 256];
    for (u, q) in users.iter().enumerate() {
        name_user(&mut by, q.seen, u as u8, asked == Some(u as u8));
    }
    by
}

// How many pairs of user and session value were found.
pub fn count_pairs(users: &[Found; 16]) -> usize
    requires { (u : ℕ) → u < 16 → (user_found users.now u).len ≤ 256 }
    ensures { result ≡ found_pairs users.now 16 }
{
    let mut n: usize = 0;
    for q in users {
        n += q.len;
    }
    n
}

// Whether every starting session could have been brought about by its user.
pub fn all_brought(users: &[Found; 16], starting: &Sessions) -> bool
    ensures { result ≡ all_found users.now (sessions_of starting.now) }
{
    for k in 0..starting.count as usize {
        let session = starting.session(k);
        let Some(q) = users.get(session.user as usize) else {
            return false;
        };
        if !lanes::has(q.seen, session.value as usize) {
            return false;
        }
    }
    true
}
