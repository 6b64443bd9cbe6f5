// The samples of a block file.
ghost use Rattle.std.specs.Prelude.{◌≡◌, ◌+◌, ◌*◌, ◌≤◌, length};
ghost use Rattle.std.proofs.lemmas.List.Edits.{sets};
ghost use Rattle.lattice.specs.Counts.{most_points};
ghost use Rattle.blockfile.specs.Format.{samples_from};

use crate::numbers;

// The first n entries become the samples that follow the size bytes.
pub fn write_samples(bytes: &[u8], n: usize, samples: &mut [i16])
    requires { (n ≤ most_points) × (3 + 2 * n ≤ length bytes.now) × (n ≤ length samples.old) }
    ensures { samples.new ≡ sets samples.old 0 (samples_from bytes.now 3 n) }
{
    for (i, sample) in samples[..n].iter_mut().enumerate() {
        *sample = numbers::signed(numbers::two_at(bytes, 3 + 2 * i));
    }
}
