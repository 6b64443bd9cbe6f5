// The public calls for C: each is the library's of the same name, with its contract. A table is a
// pointer and its length in entries, and an answer is a struct by value (include/yakuemi.h).
#![tactic(auto)]

ghost use Rattle.std.specs.Prelude.{◌≡◌};
ghost use Rattle.yakuemi.specs.Measures.{measure, sizes};
ghost use Rattle.yakuemi.specs.Reads.{read_file, answer_of};
ghost use Rattle.moving.specs.Block.{block_of, reading_of};
ghost use Rattle.mending.specs.Mend.{mend};
ghost use Rattle.geometry.specs.Place.{place_of};
ghost use Rattle.filling.specs.Fill.{fill};
ghost use Rattle.filling.specs.Demand.{Conforms, OnSkin, rows_read};
ghost use Rattle.filling.specs.Located.{locate};
ghost use Rattle.metric.specs.Millimetres.{locate_mm};
ghost use Rattle.numbering.specs.Nodes.{number};

use filling::{Filled, Placed};
use mending::Mended;
use metric::PlacedMm;
use numbering::Numbered;
use yakuemi::{Measures, ReadFile};

#[unsafe(no_mangle)]
pub extern "C" fn yakuemi_measures(nx: u32, ny: u32, nz: u32) -> Measures
    ensures { result ≡ measure (sizes nx ny nz) }
{
    yakuemi::yakuemi_measures(nx, ny, nz)
}

#[unsafe(no_mangle)]
pub extern "C" fn yakuemi_read(bytes: &[u8], samples: &mut [i16], cuts: &mut [u8]) -> ReadFile
    ensures answer { result ≡ answer_of (read_file bytes.now samples.old cuts.old).answer }
    ensures samples { samples.new ≡ (read_file bytes.now samples.old cuts.old).samples }
    ensures cuts { cuts.new ≡ (read_file bytes.now samples.old cuts.old).cuts }
{
    yakuemi::yakuemi_read(bytes, samples, cuts)
}

#[unsafe(no_mangle)]
pub extern "C" fn yakuemi_mend(
    nx: u32,
    ny: u32,
    nz: u32,
    band: u32,
    samples: &[i16],
    cuts: &mut [u8],
) -> Mended
    ensures answer { result ≡ (mend band (block_of (sizes nx ny nz) samples.now cuts.old)).answer }
    ensures cuts { cuts.new ≡ (mend band (block_of (sizes nx ny nz) samples.now cuts.old)).cuts }
{
    yakuemi::yakuemi_mend(nx, ny, nz, band, samples, cuts)
}

#[unsafe(no_mangle)]
pub extern "C" fn yakuemi_fill(
    nx: u32,
    ny: u32,
    nz: u32,
    band: u32,
    samples: &[i16],
    cuts: &[u8],
    state: &mut [u8],
    rows: &mut [u32],
) -> Filled
    ensures answer { result
        ≡ (fill band (block_of (sizes nx ny nz) samples.now cuts.now) state.old rows.old).answer }
    ensures state { state.new
        ≡ (fill band (block_of (sizes nx ny nz) samples.now cuts.now) state.old rows.old).state }
    ensures rows { rows.new
        ≡ (fill band (block_of (sizes nx ny nz) samples.now cuts.now) state.old rows.old).rows }
    ensures conforms { result.number ≡ 0
        → Conforms (rows_read rows.new result.rows)
        (place_of (sizes nx ny nz) cuts.now state.new)
        (OnSkin (reading_of band (block_of (sizes nx ny nz) samples.now cuts.now))) }
{
    yakuemi::yakuemi_fill(nx, ny, nz, band, samples, cuts, state, rows)
}

#[unsafe(no_mangle)]
pub extern "C" fn yakuemi_place(
    nx: u32,
    ny: u32,
    nz: u32,
    cuts: &[u8],
    state: &[u8],
    id: u32,
) -> Placed
    ensures { result ≡ locate (sizes nx ny nz) cuts.now state.now id }
{
    yakuemi::yakuemi_place(nx, ny, nz, cuts, state, id)
}

#[unsafe(no_mangle)]
pub extern "C" fn yakuemi_place_mm(
    nx: u32,
    ny: u32,
    nz: u32,
    cuts: &[u8],
    state: &[u8],
    id: u32,
    unit: f64,
) -> PlacedMm
    ensures { result ≡ locate_mm (sizes nx ny nz) cuts.now state.now id unit }
{
    yakuemi::yakuemi_place_mm(nx, ny, nz, cuts, state, id, unit)
}

#[unsafe(no_mangle)]
pub extern "C" fn yakuemi_nodes(
    nx: u32,
    ny: u32,
    nz: u32,
    cuts: &[u8],
    state: &[u8],
    rows: &mut [u32],
    nodes: &mut [u32],
) -> Numbered
    ensures answer { result ≡ (number (sizes nx ny nz) cuts.now state.now rows.old nodes.old).answer }
    ensures rows { rows.new
        ≡ (number (sizes nx ny nz) cuts.now state.now rows.old nodes.old).rows }
    ensures nodes { nodes.new
        ≡ (number (sizes nx ny nz) cuts.now state.now rows.old nodes.old).nodes }
{
    yakuemi::yakuemi_nodes(nx, ny, nz, cuts, state, rows, nodes)
}
