// Words of 64 lanes: all or none of them, and the bits of their numbers.
ghost use Rattle.std.specs.Prelude.{ℕ, ◌<◌};
ghost use Rattle.planes.specs.Word.{Word, Planes};

// All lanes or none.
pub(super) fn whole(b: bool) -> u64
    ensures { (w : ℕ) → Word (λ v. b) w result }
{
    if b { u64::MAX } else { 0 }
}

// The bits of the lanes' numbers of word w: in the first six of eight planes they are the same in every word.
pub(super) fn planes_of(w: usize) -> [u64; 8]
    requires { w < 4 }
    ensures { Planes w result }
{
    [
        0xAAAA_AAAA_AAAA_AAAA,
        0xCCCC_CCCC_CCCC_CCCC,
        0xF0F0_F0F0_F0F0_F0F0,
        0xFF00_FF00_FF00_FF00,
        0xFFFF_0000_FFFF_0000,
        0xFFFF_FFFF_0000_0000,
        whole(w % 2 == 1),
        whole(w / 2 == 1),
    ]
}
