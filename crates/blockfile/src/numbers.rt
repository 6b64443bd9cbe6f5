// Numbers of a block file: low byte first. (Of two bytes and of four: the library has a function for
// each, and one over both would say no less.)
ghost use Rattle.std.specs.Prelude.{◌≡◌, ◌+◌, ◌≤◌, length};
ghost use Rattle.blockfile.specs.Format.{two_at, four_at, signed};

// The number of the two bytes from i on.
#[tactic(auto, unfolding(crate::specs::Format::two_at))]
pub fn two_at(bytes: &[u8], i: usize) -> u16
    requires { i + 2 ≤ length bytes.now }
    ensures { result ≡ two_at bytes.now i }
{
    u16::from_le_bytes([bytes[i], bytes[i + 1]])
}

// The number of the four bytes from i on.
#[tactic(auto, unfolding(crate::specs::Format::two_at, crate::specs::Format::four_at))]
pub fn four_at(bytes: &[u8], i: usize) -> u32
    requires { i + 4 ≤ length bytes.now }
    ensures { result ≡ four_at bytes.now i }
{
    u32::from_le_bytes([bytes[i], bytes[i + 1], bytes[i + 2], bytes[i + 3]])
}

// A sample from its two bytes, in two's complement.
pub fn signed(n: u16) -> i16
    ensures { result ≡ signed n }
{
    n.cast_signed()
}
