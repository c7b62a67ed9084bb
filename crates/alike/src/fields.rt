// Where the values of the operands of one holder lie in its packed value.
ghost use Rattle.std.specs.Prelude.{◌≡◌, suc, ◌+◌, ◌*◌, ◌≤◌, min, length, drop};
ghost use Rattle.bits.specs.Packed.{tab};
ghost use Rattle.policy.specs.Policy.{bits_for, width};
ghost use Rattle.policy.specs.Rules.{attrs_of};
ghost use Rattle.formulas.specs.Value.{attr_of};
ghost use Rattle.formulas.specs.Parts.{Filling};
ghost use Rattle.alike.specs.Fields.{shift_in, bits_in};

use formulas::table::{byte_of, place};
use policy::Class;

// Where the value of each operand of one holder begins in the holder's packed value, and how many bits it has there.
#[derive(Clone, Copy)]
pub(super) struct Fields {
    pub(super) shifts: [u8; 256],
    pub(super) bits: [u8; 256],
}

// At the places of holder h are stored how many bits stand right of each attribute's value, at most 8, and how many it has itself, the last
// attribute first.
fn lay(shifts: &mut [u8], bits: &mut [u8], h: usize, class: Class)
    requires { (32 * h + 32 ≤ length shifts.old) × (32 * h + 32 ≤ length bits.old) }
    ensures shifts { Filling (λ i k. min (width (drop (suc k) (attrs_of class))) 8) h h 0 shifts.old shifts.new }
    ensures bits { Filling (λ i k. bits_for (attr_of (attrs_of class) k)) h h 0 bits.old bits.new }
{
    let mut left: usize = 0;
    for k in (0..byte_of(class.count as usize) as usize).rev() {
        let own = class.attribute(k).bits();
        let right = byte_of(left);
        place(shifts, h, h, k, right, right);
        place(bits, h, h, k, own, own);
        left += own as usize;
    }
}

// Where the operands of holder h lie, which has the attributes of the class. Those of other holders lie nowhere.
pub(super) fn fields_of(class: Class, h: u8) -> Fields
    ensures shifts_value { result.shifts ≡ tab (shift_in (attrs_of class) h) 0 256 }
    ensures bits_value { result.bits ≡ tab (bits_in (attrs_of class) h) 0 256 }
{
    let mut shifts: [u8; 256] = [0; 256];
    let mut bits: [u8; 256] = [0; 256];
    if h < 8 {
        lay(&mut shifts, &mut bits, h as usize, class);
    }
    Fields { shifts, bits }
}
