// The ways by which values were found, for those who write them down.
ghost use Rattle.std.specs.Prelude.{◌≡◌, ◌-◌};
ghost use Rattle.search.specs.Searched.{value_at, via_at, depth_at, place_at};
ghost use Rattle.search.specs.Path.{ancestor, way_at};

use crate::queue::Found;
use bits::get_or;

impl Found {
    // The value at a place, or 0 past the end.
    pub fn value_at(&self, i: usize) -> u8
        ensures { result ≡ value_at self.now i }
    {
        get_or(&self.order, i, 0)
    }

    // What the link of a place was made by, or 0 past the end.
    pub fn via_at(&self, i: usize) -> u16
        ensures { result ≡ via_at self.now i }
    {
        get_or(&self.via, i, 0)
    }

    // How many links a place is from a start, or 0 past the end.
    pub fn depth_at(&self, i: usize) -> u16
        ensures { result ≡ depth_at self.now i }
    {
        get_or(&self.depth, i, 0)
    }

    // The place of a value, or 0 where it has none.
    pub fn place_of(&self, v: usize) -> usize
        ensures { result ≡ place_at self.now v - 1 }
    {
        get_or(&self.place, v, 0).saturating_sub(1) as usize
    }

    // The place k links before pos.
    fn ancestor(&self, k: usize, pos: usize) -> usize
        ensures { result ≡ ancestor self.now k pos }
    {
        let mut place = pos;
        for _ in 0..k {
            place = get_or(&self.from, place, 0).saturating_sub(1) as usize;
        }
        place
    }

    // The place on the way to pos that is j links from the start.
    pub fn way_at(&self, pos: usize, j: usize) -> usize
        ensures { result ≡ way_at self.now pos j }
    {
        let depth = self.depth_at(pos) as usize;
        self.ancestor(depth.saturating_sub(j), pos)
    }

    // The value there.
    pub fn way_value(&self, pos: usize, j: usize) -> u8
        ensures { result ≡ value_at self.now (way_at self.now pos j) }
    {
        self.value_at(self.way_at(pos, j))
    }
}
