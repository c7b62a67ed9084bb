// A reader that is lent through all of reading: it goes over a file's bytes and counts the bits that it takes.
ghost use Rattle.std.specs.Prelude.{◌≡◌, ◌+◌, ◌*◌, ◌^◌, ◌≤◌, ◌<◌, length, IfOk};

use super::bit_reader::BitReader;
use refusal::{Numbered, Refusal};

// The file's bytes with the place reached in them, and how many bits were taken until then: as many as stand before the place, which is within the bytes.
#[derive(Drop)]
pub struct FileReader<'a> {
    pub bits: BitReader<'a>,
    pub taken: usize,
    pub ghost count_is_place: { taken ≡ bits.at },
    pub ghost inside: { bits.at ≤ 8 * length bits.src.now },
}

impl<'a> FileReader<'a> {
    ghost use Rattle.format.specs.Format.{within, field};
    ghost use Rattle.format.specs.Reads.{any, Reads, ReadsBy};

    // A reader that stands at the start of the bytes.
    pub fn new(src: &'a [u8]) -> FileReader<'a>
        ensures source { result.bits.src ≡ src.entry }
        ensures start { result.bits.at ≡ 0 }
    {
        let bits = BitReader::new(src, 0);
        FileReader { bits, taken: 0 }
    }

    // The place reached.
    pub fn position(&self) -> usize
        ensures { result ≡ self.now.bits.at }
    {
        self.bits.at
    }

    // How many bits were taken.
    pub fn taken(&self) -> usize
        ensures { result ≡ self.now.taken }
    {
        self.taken
    }

    // The next w bits. Where they run past the end, all bits of the file are taken.
    pub fn take(&mut self, w: usize) -> Result<u64, Refusal>
        requires { (w ≤ 24) × (self.old.bits.at < 2 ^ 40) }
        ensures reads { Reads (any w) w (λ x. x) self.old self.new result }
        ensures fits { IfOk result (λ x. x < 2 ^ w) }
    {
        let found = self.bits.take(w);
        match found {
            Some(x) => {
                self.taken += w;
                Ok(x)
            }
            None => {
                let end = self.bits.src.len() * 8;
                self.taken += end - self.bits.at;
                self.bits.at = end;
                Err(Refusal::EndsEarly)
            }
        }
    }

    // A field of w bits from lo up to, not including, end; any other number is refused, by whatever has a number itself.
    pub fn field<E: Numbered>(&mut self, w: usize, lo: u64, end: u64, refusal: E) -> Result<u64, E>
        requires { (w ≤ 24) × (self.old.bits.at < 2 ^ 40) }
        ensures reads { ReadsBy E.numbered (field w (within lo end) (E.numbered refusal)) w (λ x. x) self.old self.new result }
        ensures below { IfOk result (λ x. x < end) }
    {
        let x = match self.take(w) {
            Ok(x) => x,
            Err(early) => return Err(E::of(early)),
        };
        if !(lo..end).contains(&x) {
            return Err(refusal);
        }
        Ok(x)
    }
}
