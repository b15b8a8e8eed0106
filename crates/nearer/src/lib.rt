// The nearer of two candidates to a probe, which is the first vector of each pair.
#![tactic(auto)]

ghost use Rattle.std.specs.Prelude.{◌≡◌};
ghost use Rattle.vector_types.specs.Parts.{body_of};
ghost use Rattle.nearer.specs.Nearer.{near, nearer_by, compared_of, nearer_of, part_of, place_of};

use distance::{Distance, Measured, Refused, check_pair, measure_pair, vector_as};
use vector_types::{Mode, Readings, Refusal, Vector};

#[derive(Clone, Copy, PartialEq, Eq)]
pub enum Candidate {
    First,
    Second,
}

// A candidate, its distance from the probe, and how many readings it holds itself.
#[derive(Clone, Copy)]
pub struct Near {
    pub candidate: Candidate,
    pub distance: f64,
    pub readings: Readings,
}

// One of the three blobs.
#[derive(Clone, Copy, PartialEq, Eq)]
pub enum Among {
    Probe,
    First,
    Second,
}

impl Near {
    // A candidate that is measured against the probe.
    fn of(candidate: Candidate, found: Measured) -> Self
        ensures { result ≡ near candidate found.distance found.counts.second }
    {
        Near {
            candidate,
            distance: found.distance,
            readings: found.counts.second,
        }
    }
}

// The one at the lesser distance: a tie gives the first, and NaN loses to all else.
#[tactic(auto, unfolding(crate::specs::Nearer::nearer_by))]
fn choose(first: Near, second: Near) -> Result<Near, Refusal>
    ensures { result ≡ nearer_by first second }
{
    let x = first.distance;
    let y = second.distance;
    if x.is_nan() && y.is_nan() {
        return Err(Refusal::BothDistancesNan);
    }
    if y.is_nan() || x <= y {
        return Ok(first);
    }
    Ok(second)
}

// The nearer of two candidates. Both are checked before any is measured.
#[tactic(auto, unfolding(crate::specs::Nearer::compared_of))]
fn compare(
    distance: Distance,
    probe: Vector<'_>,
    first: Vector<'_>,
    second: Vector<'_>,
) -> Result<Near, Refusal>
    ensures { result ≡ compared_of distance probe.entry.view first.entry.view second.entry.view
        (body_of probe.entry.blob.now) (body_of first.entry.blob.now) (body_of second.entry.blob.now) }
{
    check_pair(probe.view, first.view)?;
    check_pair(probe.view, second.view)?;
    let x = measure_pair(distance, probe, first)?;
    let y = measure_pair(distance, probe, second)?;
    choose(
        Near::of(Candidate::First, x),
        Near::of(Candidate::Second, y),
    )
}

// The nearer candidate and its distance, or the first refusal in the order of the rules.
#[tactic(auto, unfolding(crate::specs::Nearer::nearer_of))]
pub fn nearer(
    distance: Distance,
    probe: &[u8],
    first: &[u8],
    second: &[u8],
) -> Result<Near, Refused<Among>>
    ensures { result ≡ nearer_of distance probe.now first.now second.now }
{
    let probe = vector_as(Among::Probe, Mode::Plain, probe)?;
    let first = vector_as(Among::First, Mode::Plain, first)?;
    let second = vector_as(Among::Second, Mode::Plain, second)?;
    Ok(compare(distance, probe, first, second)?)
}

// The nearer candidate's body, a part of its own blob; nothing on a refusal.
pub fn nearer_part<'a>(
    distance: Distance,
    probe: &[u8],
    first: &'a [u8],
    second: &'a [u8],
) -> &'a [u8]
    ensures result_value { result.now ≡ part_of (nearer_of distance probe.now first.now second.now) first.now second.now }
    ensures ref_ptr_value { result.ref_ptr ≡ place_of (nearer_of distance probe.now first.now second.now) first.entry.ref_ptr second.entry.ref_ptr }
{
    match nearer(distance, probe, first, second) {
        Ok(found) => match found.candidate {
            Candidate::First => vector_types::body(first),
            Candidate::Second => vector_types::body(second),
        },
        Err(_) => &first[..0],
    }
}
