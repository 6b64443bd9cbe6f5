// The joint test of eight bytes in a row, which the compiler makes one load of. The bytes are the
// digits of one number, the first the lowest, so that no sum of theirs can wrap to zero. The digits stand
// here, and not in `u64::from_le_bytes`, since wrong ones must be seen to be refused (must-fail).
ghost use Rattle.std.specs.Prelude.{◌+◌, ◌<◌, ◌≤◌, length};
ghost use Rattle.ranges.specs.inner.Blank.{Joint};

fn two(bytes: &[u8], o: usize) -> u64
    requires { o + 2 ≤ length bytes.now }
    ensures joint { Joint bytes.now o 2 result }
    ensures upper_bound { result < 65536 }
{
    u64::from(bytes[o]) + 256 * u64::from(bytes[o + 1])
}

fn four(bytes: &[u8], o: usize) -> u64
    requires { o + 4 ≤ length bytes.now }
    ensures joint { Joint bytes.now o 4 result }
    ensures upper_bound { result < 4294967296 }
{
    two(bytes, o) + 65536 * two(bytes, o + 2)
}

// The joint test: it passes, with 0, exactly when all eight bytes are zero.
pub fn eight(bytes: &[u8; 8]) -> u64
    ensures { Joint bytes.now 0 8 result }
{
    four(bytes, 0) + 4294967296 * four(bytes, 4)
}
