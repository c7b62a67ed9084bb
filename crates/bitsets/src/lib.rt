// Rows of 256 bits in a lent area, four words a row, and steps that work out rows from others.
#![tactic(auto)]

ghost use Rattle.std.specs.Prelude.{◌≡◌, ℕ, ◌+◌, ◌*◌, ◌≤◌, ◌<◌, length, get_or};
ghost use Rattle.lanes.specs.Lanes.{lane_of, Lanes};
ghost use Rattle.bitsets.specs.Rows.{bit_at, Rows, put};
ghost use Rattle.bitsets.specs.Steps.{Fits, step_says, ran};

// Row a.
pub fn load(area: &[u64], a: usize) -> [u64; 4]
    requires { 4 * a + 4 ≤ length area.now }
    ensures { Lanes (bit_at area.now a) result }
{
    [
        area[4 * a],
        area[4 * a + 1],
        area[4 * a + 2],
        area[4 * a + 3],
    ]
}

// The bits of x become row k.
pub fn store(area: &mut [u64], k: usize, x: [u64; 4])
    requires { 4 * k + 4 ≤ length area.old }
    ensures rows { Rows (put k (lane_of x) (bit_at area.old)) area.new }
    ensures area_len_unchanged { length area.new ≡ length area.old }
{
    area[4 * k] = x[0];
    area[4 * k + 1] = x[1];
    area[4 * k + 2] = x[2];
    area[4 * k + 3] = x[3];
}

// Bit v of row a.
fn bit(area: &[u64], a: usize, v: usize) -> bool
    requires { (4 * a + 4 ≤ length area.now) × (v < 256) }
    ensures { result ≡ bit_at area.now a v }
{
    (area[4 * a + v / 64] >> (v % 64)) % 2 == 1
}

// All bits or none.
fn whole(b: bool) -> [u64; 4]
    ensures { Lanes (λ v. b) result }
{
    if b { lanes::all() } else { lanes::none() }
}

// What a step makes of its row, for the index i.
#[tactic(auto, unfolding(crate::specs::Steps::does_of, crate::specs::Steps::left_of, crate::specs::Steps::right_of))]
fn made(area: &[u64], s: u64, i: usize) -> [u64; 4]
    requires { Fits (length area.now) i s }
    ensures { Lanes (step_says (bit_at area.now) i s) result }
{
    let does = s / 281474976710656;
    let a = (s / 65536 % 65536) as usize;
    let b = (s % 65536) as usize;
    match does {
        1 => lanes::all(),
        2 => lanes::not(load(area, a)),
        3 => lanes::and(load(area, a), load(area, b)),
        4 => lanes::or(load(area, a), load(area, b)),
        5 => whole(bit(area, a, i)),
        6 => load(area, a + i),
        _ => lanes::none(),
    }
}

// The m steps from place `first` on, one after another, for the index i.
pub fn run(area: &mut [u64], steps: &[u64], first: usize, m: usize, i: usize)
    requires m_in_bounds { first + m ≤ length steps.now }
    requires by_index { (j : ℕ) → j < m → Fits (length area.old) i (get_or steps.now (first + j) 0) }
    ensures rows { Rows (ran steps.now first i m (bit_at area.old)) area.new }
    ensures area_len_unchanged { length area.new ≡ length area.old }
{
    for s in &steps[first..first + m] {
        let x = made(area, *s, i);
        store(area, (*s / 4294967296 % 65536) as usize, x);
    }
}
