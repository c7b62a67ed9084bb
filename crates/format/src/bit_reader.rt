// A reader over the file's bytes, which keeps its bit position. Its functions are thin, over `found_at` on a slice and a number. `read_at`
// reads one field by a reader of its own. A field is at most 24 bits wide, and begins below bit 2^40.
ghost use Rattle.std.specs.Prelude.{◌≡◌, ◌^◌, ◌≤◌, ◌<◌};
ghost use Rattle.format.specs.Reader.{found_at, past};

use bits::field_at;

// A field, and where the next one begins: where this one was to begin, if it runs past the end.
#[derive(Clone, Copy)]
pub struct Found {
    pub field: Option<u64>,
    pub at: usize,
}

// The field of w bits that begins at bit at.
fn found_at(s: &[u8], at: usize, w: usize) -> Found
    requires { (w ≤ 24) × (at < 2 ^ 40) }
    ensures { result ≡ found_at s.now at w }
{
    let f = field_at(s, at, w);
    match f {
        Some(_) => Found {
            field: f,
            at: at + w,
        },
        None => Found { field: f, at },
    }
}

// The file's bytes, and the place reached in them, in bits.
#[derive(Clone, Copy)]
pub struct BitReader<'a> {
    pub src: &'a [u8],
    pub at: usize,
}

impl<'a> BitReader<'a> {
    // A reader that stands at bit at.
    pub fn new(src: &'a [u8], at: usize) -> BitReader<'a>
        ensures { (result.src ≡ src.entry) × (result.at ≡ at) }
    {
        BitReader { src, at }
    }

    // The place reached.
    pub fn position(self) -> usize
        ensures { result ≡ self.entry.at }
    {
        self.at
    }

    // The next field of w bits. The reader moves on, unless the field runs past the end.
    pub fn take<'s>(&'s mut self, w: usize) -> Option<u64>
        requires { (w ≤ 24) × (self.old.at < 2 ^ 40) }
        ensures { (result ≡ (found_at self.old.src.now self.old.at w).field)
            × (self.new ≡ past self.old w) }
    {
        let t = found_at(self.src, self.at, w);
        self.at = t.at;
        t.field
    }
}

// The field of w bits that begins at bit at, by a reader.
pub fn read_at(s: &[u8], at: usize, w: usize) -> Found
    requires { (w ≤ 24) × (at < 2 ^ 40) }
    ensures { result ≡ found_at s.now at w }
{
    let mut r = BitReader::new(s, at);
    let field = r.take(w);
    let at = r.position();
    Found { field, at }
}
