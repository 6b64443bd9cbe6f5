// The seven bytes of one point.
ghost use Rattle.std.specs.Prelude.{◌≡◌, length};
ghost use Rattle.checks.specs.inner.Faults.{Answered, seven_fault};

use crate::Fault;

// The first of a point's seven bytes that is at fault. must[d] says that the edge in direction d
// must have a cut. Offsets are counted from the point's first byte: nothing is known of the table.
#[tactic(auto, using(crate::proofs::Faults::gap_here, crate::proofs::Faults::stray_here))]
pub fn point_fault(bytes: &[u8], must: [bool; 7]) -> Result<(), Fault>
    requires { length bytes.now ≡ 7 }
    ensures { Answered (seven_fault must bytes.now) 0 7 result }
{
    for (d, &crosses) in must.iter().enumerate() {
        if crosses && bytes[d] == 0 {
            return Err(Fault::Gap(d));
        }
        if !crosses && bytes[d] != 0 {
            return Err(Fault::Stray(d));
        }
    }
    Ok(())
}
