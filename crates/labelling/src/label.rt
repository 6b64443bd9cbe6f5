// Labels of samples by a band. By the band 0 a label is the sample's own sign. Which points begin with
// the mark, as their labels are zero, is asked of `mark_of` (codes.rt).
ghost use Rattle.std.specs.Prelude.{◌≡◌};
ghost use Rattle.moving.specs.Label.{label_of, band_fits, is_plus, is_minus, opposed};
ghost use Rattle.labelling.specs.inner.Labels.{has_label};

const BAND_MOST: u32 = 32767;

// A band that is taken.
#[tactic(auto, unfolding(moving::specs::Label::band_fits))]
pub fn band_fits(band: u32) -> bool
    ensures { result ≡ band_fits band }
{
    band <= BAND_MOST
}

pub fn is_plus(band: u32, a: i16) -> bool
    ensures { result ≡ is_plus (label_of band a) }
{
    (band as i64) < (a as i64)
}

pub fn is_minus(band: u32, a: i16) -> bool
    ensures { result ≡ is_minus (label_of band a) }
{
    (a as i64) < -(band as i64)
}

// A sample's label is plus, or minus.
pub fn has_label(plus: bool, band: u32, a: i16) -> bool
    ensures { result ≡ has_label plus band a }
{
    if plus {
        return is_plus(band, a);
    }
    is_minus(band, a)
}

// One sample's label is plus and the other's is minus.
pub fn opposite(band: u32, a: i16, b: i16) -> bool
    ensures { result ≡ opposed (label_of band a) (label_of band b) }
{
    if is_minus(band, a) {
        return is_plus(band, b);
    }
    if is_plus(band, a) {
        return is_minus(band, b);
    }
    false
}
