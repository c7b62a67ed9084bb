// Lists of steps.
ghost use Rattle.std.specs.Prelude.{◌≡◌, List, [], ◌∷◌, ◌++◌, ℕ, ◌≤◌, ◌<◌, length, get_or};
ghost use Rattle.bitsets.specs.Rows.{bit_at, Rows};
ghost use Rattle.bitsets.specs.Steps.{Fits, ran};

// At most 64 steps: the first `len` of `steps`.
#[derive(Clone, Copy)]
pub struct StepList {
    pub len: usize,
    pub steps: [u64; 64],
    pub ghost few: { len ≤ 64 },
}

impl StepList {
    ghost use Rattle.prepared.specs.StepList.{listed};

    // No step.
    pub fn new() -> Self
        ensures { listed result ≡ [] }
    {
        StepList {
            len: 0,
            steps: [0; 64],
        }
    }

    // One step more, at the end.
    pub fn push(&mut self, step: u64)
        requires { length (listed self.old) < 64 }
        ensures { listed self.new ≡ listed self.old ++ step ∷ [] }
    {
        self.steps[self.len] = step;
        self.len += 1;
    }

    // The steps work out their rows, one after another, for the index i.
    pub fn run(&self, area: &mut [u64], i: usize)
        requires { (j : ℕ) → j < length (listed self.now) → Fits (length area.old) i (get_or (listed self.now) j 0) }
        ensures rows { Rows (ran (listed self.now) 0 i (length (listed self.now)) (bit_at area.old)) area.new }
        ensures area_len_unchanged { length area.new ≡ length area.old }
    {
        bitsets::run(area, &self.steps[..self.len], 0, self.len, i);
    }
}
