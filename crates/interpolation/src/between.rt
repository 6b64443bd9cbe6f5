// The byte of an edge that crosses, by the samples of its ends.
ghost use Rattle.std.specs.Prelude.{◌≡◌, ◌<◌, ◌≤◌};
ghost use Rattle.mending.specs.Mend.{size_of, rounded, held};

// A sample's size. That of -32768 is 32768, which 16 bits with a sign do not hold.
#[tactic(auto, unfolding(mending::specs::Mend::size_of))]
fn size(a: i16) -> u32
    ensures value { result ≡ size_of a }
    ensures upper_bound { result ≤ 32768 }
{
    u32::from(a.unsigned_abs())
}

// 256 times the start's size, divided by the sum of both, rounded half up: twice the quotient and
// one, halved.
#[tactic(auto, unfolding(mending::specs::Mend::rounded))]
fn rounded(start: u32, far: u32) -> u32
    requires { (0 < start) × (start ≤ 32768) × (far ≤ 32768) }
    ensures { result ≡ rounded start far }
{
    let sum = start + far;
    (512 * start + sum) / (2 * sum)
}

// Held within 1 to 255: 0 would say that there is no cut.
#[tactic(auto, unfolding(mending::specs::Mend::held))]
fn held(r: u32) -> u8
    ensures { result ≡ held r }
{
    r.clamp(1, 255) as u8
}

pub fn byte_between(start: i16, far: i16) -> u8
    requires { 0 < size_of start }
    ensures { result ≡ held (rounded (size_of start) (size_of far)) }
{
    held(rounded(size(start), size(far)))
}
