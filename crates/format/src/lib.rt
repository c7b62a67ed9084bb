// The steps that every reader and writer of a format is made of: a field is taken and judged, or judged and stored.
#![tactic(auto)]

ghost use Rattle.std.specs.Prelude.{◌≡◌, ◌+◌, ◌^◌, ◌≤◌, ◌<◌, ltb};
ghost use Rattle.format.specs.Format.{field};
ghost use Rattle.format.specs.Steps.{place_of, StoresBy};

pub mod bit_reader;
pub mod file_reader;

use refusal::{Numbered, Refusal};

// Why writing stopped, and the place after what was stored until then, in bits.
#[derive(Clone, Copy)]
pub struct Stopped<E> {
    pub refusal: E,
    pub at: usize,
}

impl From<Stopped<Refusal>> for Refusal {
    ghost from_gives = { λ stopped refusal. refusal ≡ stopped.refusal };

    fn from(stopped: Stopped<Refusal>) -> Refusal {
        stopped.refusal
    }
}

// Whether x fits w bits.
fn fits(x: u64, w: u8) -> bool
    ensures { result ≡ ltb x (2 ^ w) }
{
    bits::high_bits(x, w as usize) == 0
}

// A field of w bits is judged, by whether its test holds, and stored; returned is the place after it. Where it is refused, by whatever has a
// number, nothing is stored and the place stays.
pub fn put_field<E: Numbered>(
    out: &mut [u8],
    at: usize,
    w: u8,
    x: u64,
    holds: bool,
    refusal: E,
) -> Result<usize, Stopped<E>>
    requires { at < 2 ^ 40 }
    ensures stores { StoresBy E.numbered (field w (λ _. holds) (E.numbered refusal)) x out.old out.new at result }
    ensures pos_bound { place_of result ≤ at + w }
{
    if !fits(x, w) || !holds {
        return Err(Stopped { refusal, at });
    }
    bits::put(out, at, w, x);
    Ok(at + w as usize)
}
