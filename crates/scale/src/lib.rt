// An answer of the place call in millimetres: the unit is tested, and each coordinate becomes a
// float and is multiplied once.
#![tactic(auto)]

ghost use Rattle.std.specs.Prelude.{◌≡◌};
ghost use Rattle.metric.specs.Millimetres.{unit_fits, scaled, metric, unplaced_mm, in_millimetres};

use filling::Placed;
use metric::{Metric, PlacedMm};
use refusals::Refusal;

// 1/1,048,576 and 16 millimetres per step: 2^-20, all its decimals written out, and 2^4.
const LEAST: f64 = 0.00000095367431640625;

const MOST: f64 = 16.0;

// Whether the unit is a number from the least to the most. A NaN fails both comparisons.
fn unit_fits(unit: f64) -> bool
    ensures { result ≡ unit_fits unit }
{
    LEAST <= unit && unit <= MOST
}

// A whole number of steps in millimetres: the cast loses nothing, the product is rounded once.
#[tactic(auto, unfolding(metric::specs::Millimetres::scaled))]
fn times(n: u32, unit: f64) -> f64
    ensures { result ≡ scaled unit n }
{
    n as f64 * unit
}

fn refused(number: u32) -> PlacedMm
    ensures { result ≡ unplaced_mm number }
{
    PlacedMm {
        number,
        point: Metric {
            x: 0.0,
            y: 0.0,
            z: 0.0,
        },
    }
}

#[tactic(auto, unfolding(metric::specs::Millimetres::metric))]
fn point(p: Placed, unit: f64) -> Metric
    ensures { result ≡ metric unit p }
{
    Metric {
        x: times(p.x, unit),
        y: times(p.y, unit),
        z: times(p.z, unit),
    }
}

// The place call's own refusals come first, then 13.
pub fn in_millimetres(p: Placed, unit: f64) -> PlacedMm
    ensures { result ≡ in_millimetres unit p }
{
    if p.number != 0 {
        return refused(p.number);
    }
    if !unit_fits(unit) {
        return refused(Refusal::Unit.number());
    }
    PlacedMm {
        number: 0,
        point: point(p, unit),
    }
}
