// Reading a block file.
ghost use Rattle.std.specs.Prelude.{◌≡◌};
ghost use Rattle.yakuemi.specs.Reads.{read_file, answer_of};

// The answer of reading: 0 with the sizes and where in the bytes the file ends, or a number of
// document 01 with zeros. 12 says that a lent table is too short.
#[repr(C)]
#[derive(Clone, Copy)]
pub struct ReadFile {
    pub number: u32,
    pub nx: u32,
    pub ny: u32,
    pub nz: u32,
    pub end: u64,
}

// Reads a block file from the start of the bytes into the first N samples and the first 7N cut
// bytes of the lent tables. A refusal writes nothing.
#[tactic(auto, unfolding(crate::specs::Reads::read_file, crate::specs::Reads::answer_of, blockfile::specs::inner::Answer::answer_of, blockfile::specs::Format::refusal))]
pub fn yakuemi_read(bytes: &[u8], samples: &mut [i16], cuts: &mut [u8]) -> ReadFile
    ensures answer { result ≡ answer_of (read_file bytes.now samples.old cuts.old).answer }
    ensures samples { samples.new ≡ (read_file bytes.now samples.old cuts.old).samples }
    ensures cuts { cuts.new ≡ (read_file bytes.now samples.old cuts.old).cuts }
{
    match blockfile::file::read(bytes, 64, samples, cuts) {
        Ok(file) => ReadFile {
            number: 0,
            nx: file.lattice.sizes.nx as u32,
            ny: file.lattice.sizes.ny as u32,
            nz: file.lattice.sizes.nz as u32,
            end: file.end as u64,
        },
        Err(refusal) => ReadFile {
            number: refusal.number(),
            nx: 0,
            ny: 0,
            nz: 0,
            end: 0,
        },
    }
}
