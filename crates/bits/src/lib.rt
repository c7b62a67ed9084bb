// Fields of bits in bytes, and sets as masks: the leaves that every other crate reads and writes by.
#![tactic(auto)]

ghost use Rattle.std.specs.Prelude.{◌≡◌, cond, ◌+◌, ◌*◌, ◌/◌, ◌%◌, ◌^◌, ◌≤◌, ◌<◌, eqb, get_or as element};
ghost use Rattle.bits.specs.Field.{number_at, field_at};
ghost use Rattle.bits.specs.Packed.{put as put_of};
ghost use Rattle.bits.specs.Set.{size_of, in_set, subset_of, proper_of};

// The number of the four bytes from byte k on, with zeros past the end. No other function looks at the bytes of a file that `read_rules` reads.
fn window(s: &[u8], k: usize) -> u64
    requires { k < 2 ^ 62 }
    ensures { result ≡ number_at s.now (8 * k) 32 }
{
    if k + 3 < s.len() {
        return u32::from_be_bytes([s[k], s[k + 1], s[k + 2], s[k + 3]]) as u64;
    }
    let a = s.get(k).copied().unwrap_or(0);
    let b = s.get(k + 1).copied().unwrap_or(0);
    let c = s.get(k + 2).copied().unwrap_or(0);
    let d = s.get(k + 3).copied().unwrap_or(0);
    u32::from_be_bytes([a, b, c, d]) as u64
}

// The number of w bits that begins at bit pos, or nothing, where it runs past the end. With at most 24 bits it lies within the four bytes from the one it
// begins in.
pub fn field_at(s: &[u8], pos: usize, w: usize) -> Option<u64>
    requires { w ≤ 24 }
    ensures { result ≡ field_at s.now pos w }
{
    let k = pos / 8;
    let r = pos % 8;
    if s.len() < k + (r + w + 7) / 8 {
        return None;
    }
    Some(low_bits(window(s, k) >> (32 - r - w), w))
}

// The last n bits of x.
pub fn low_bits(x: u64, n: usize) -> u64
    ensures { result ≡ x % 2 ^ n }
{
    if n < 64 { x & ((1u64 << n) - 1) } else { x }
}

// x without its last k bits.
pub fn high_bits(x: u64, k: usize) -> u64
    ensures { result ≡ x / 2 ^ k }
{
    if k < 64 { x >> k } else { 0 }
}

// What stays of byte k where bits are stored from its bit r on: nothing, where they begin with its first.
fn kept(s: &[u8], k: usize, r: usize) -> u8
    ensures { result ≡ cond (eqb r 0) 0 (element s.now k 0) }
{
    if r == 0 { 0 } else { get_or(s, k, 0) }
}

// The low byte of v + c.
fn low_byte(v: u8, c: u64) -> u8
    ensures { result ≡ (v + c) % 256 }
{
    v.wrapping_add((c % 256) as u8)
}

// The low w bits of x are stored from bit pos on: the first bit of each byte clears that byte, and all that stands before bit pos stays.
// Where they have no room, nothing is stored.
pub fn put(out: &mut [u8], pos: usize, w: u8, x: u64)
    ensures { out.new ≡ put_of out.old pos w x }
{
    let n = w as usize;
    let k = pos / 8;
    let r = pos % 8;
    if out.len() < k + (r + n + 7) / 8 {
        return;
    }
    let y = low_bits(x, n);
    let mut v = kept(out, k, r);
    let mut i = k;
    let mut free = 8 - r;
    let mut left = n;
    while free <= left {
        left -= free;
        out[i] = low_byte(v, high_bits(y, left));
        i += 1;
        v = 0;
        free = 8;
    }
    if 0 < left {
        out[i] = low_byte(v, y << (free - left));
    }
}

// The size of a set as it counts: at most 8.
#[tactic(auto, unfolding(crate::specs::Set::size_of))]
fn size_of(n: u64) -> u64
    ensures { result ≡ size_of n }
{
    n.min(8)
}

// Whether i is a member of the set of size n that is the low bits of x.
#[tactic(auto, unfolding(crate::specs::Set::in_set, crate::specs::Set::size_of))]
pub fn member(x: u64, n: u64, i: u64) -> bool
    ensures { result ≡ in_set n x i }
{
    let m = size_of(n);
    i < m && (x >> (m - 1 - i)) & 1 == 1
}

// Whether the set of size n in x is a subset of the set of size m in y. Both are shifted so that member 0 is bit 7.
pub fn subset(x: u64, n: u64, y: u64, m: u64) -> bool
    ensures { result ≡ subset_of n x m y }
{
    let p = size_of(n);
    let q = size_of(m);
    let a = (x << (8 - p)) & 255;
    let b = (y << (8 - q)) & 255;
    a & b == a
}

// Whether it is a subset, and the other is none of it.
#[tactic(auto, unfolding(crate::specs::Set::proper_of))]
pub fn proper(x: u64, n: u64, y: u64, m: u64) -> bool
    ensures { result ≡ proper_of n x m y }
{
    subset(x, n, y, m) && !subset(y, m, x, n)
}

// Element k, or `otherwise` past the end.
pub fn get_or<T: Copy>(s: &[T], k: usize, otherwise: T) -> T
    ensures { result ≡ element s.now k otherwise }
{
    s.get(k).copied().unwrap_or(otherwise)
}
