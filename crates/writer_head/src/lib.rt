// Storing what stands before the values of a file: the head, the lists of attributes (lists), and the one step that most fields are stored by.
#![tactic(auto)]

ghost use Rattle.std.specs.Prelude.{◌≡◌, ◌+◌, ◌^◌, ◌≤◌, ◌<◌};
ghost use Rattle.format.specs.Format.{Format, field, within as within_of};
ghost use Rattle.format.specs.Steps.{place_of, StoresBy, Stores};
ghost use Rattle.policy.specs.File.{head_format};
ghost use Rattle.writer_head.specs.Parts.{head_of};

pub mod lists;

use format::{Stopped, put_field};
use refusal::{Numbered, Refusal};

// The head's counts.
#[derive(Clone, Copy)]
pub struct Counts {
    pub user: u8,
    pub session: u8,
    pub item: u8,
    pub users: u8,
    pub sessions: u8,
    pub items: u8,
    pub permissions: u8,
}

// A field of w bits from lo up to, not including, end; any other number is refused.
pub fn put_range<E: Numbered>(
    out: &mut [u8],
    at: usize,
    w: u8,
    x: u8,
    lo: u64,
    end: u64,
    refusal: E,
) -> Result<usize, Stopped<E>>
    requires { at < 2 ^ 40 }
    ensures stores { StoresBy E.numbered (field w (within_of lo end) (E.numbered refusal)) x out.old out.new at result }
    ensures pos_bound { place_of result ≤ at + w }
{
    let y = x as u64;
    put_field(out, at, w, y, (lo..end).contains(&y), refusal)
}

// The head's counts.
pub fn put_counts(out: &mut [u8], at: usize, h: Counts) -> Result<usize, Stopped<Refusal>>
    requires { at < 2 ^ 39 }
    ensures stores { Stores head_format (head_of h) out.old out.new at result }
    ensures pos_bound { place_of result ≤ at + 40 }
{
    let at = put_range(out, at, 4, h.user, 0, 9, Refusal::Count)?;
    let at = put_range(out, at, 4, h.session, 0, 9, Refusal::Count)?;
    let at = put_range(out, at, 4, h.item, 0, 9, Refusal::Count)?;
    let at = put_range(out, at, 5, h.users, 1, 17, Refusal::Count)?;
    let at = put_range(out, at, 6, h.sessions, 0, 33, Refusal::Count)?;
    let at = put_range(out, at, 6, h.items, 0, 33, Refusal::Count)?;
    let at = put_range(out, at, 4, h.permissions, 1, 9, Refusal::Count)?;
    put_field(out, at, 7, 0, true, Refusal::SpareBits)
}
