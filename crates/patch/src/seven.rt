// The seven bytes of one point, which are lent to their mending: it knows nothing of the table.
ghost use Rattle.std.specs.Prelude.{◌≡◌, ◌<◌, length, is_some, IfSome};
ghost use Rattle.mending.specs.Mend.{size_at, byte_to};
ghost use Rattle.checks.specs.inner.Faults.{number_at};
ghost use Rattle.patch.specs.inner.Mends.{Mends, HasEnds, due_byte, counted, seven_due};

use crate::Counts;
use interpolation::between;

// One byte: `far` is the far end of its edge, where that crosses. A missing byte is filled in, a stray one is
// cleared.
#[tactic(auto, using(labelling::proofs::Labels::handed), unfolding(mending::specs::Mend::byte_to, crate::specs::inner::Mends::due_byte, checks::specs::inner::Faults::number_at))]
fn mend_byte(samples: &[i16], byte: &mut u8, own: usize, far: Option<usize>) -> Counts
    requires { IfSome far (λ f. (own < length samples.now) × (f < length samples.now) × (0 < size_at samples.now own)) }
    ensures value { byte.new ≡ due_byte (is_some far) (byte_to samples.now own far) byte.old }
    ensures counts { result ≡ counted (number_at (is_some far) byte.old) }
{
    match far {
        Some(end) if *byte == 0 => {
            *byte = between::byte_between(samples[own], samples[end]);
            Counts {
                filled: 1,
                cleared: 0,
            }
        }
        None if *byte != 0 => {
            *byte = 0;
            Counts {
                filled: 0,
                cleared: 1,
            }
        }
        _ => Counts::default(),
    }
}

// All seven: `ends` are the far ends of the edges that cross.
pub fn mend_seven(samples: &[i16], bytes: &mut [u8], own: usize, ends: [Option<usize>; 7]) -> Counts
    requires ends { HasEnds samples.now own ends }
    requires bytes_len { length bytes.old ≡ 7 }
    ensures { Mends (seven_due samples.now own ends) 0 7 bytes.old bytes.new result }
{
    let mut total = Counts::default();
    for (d, &far) in ends.iter().enumerate() {
        total += mend_byte(samples, &mut bytes[d], own, far);
    }
    total
}
