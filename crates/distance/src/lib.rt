// The distances of two blobs: cosine, L2, dot and Jaccard.
#![tactic(auto)]

mod refused;

ghost use Rattle.std.specs.Prelude.{◌≡◌, true, ◌≤◌, length};
ghost use Rattle.std.proofs.Math.Option.{some};
ghost use Rattle.vector_types.specs.Layout.{max_dims, body_fits};
ghost use Rattle.vector_types.specs.Parts.{body_of};
ghost use Rattle.distance.specs.Inner.Existing.{exists_for};
ghost use Rattle.distance.specs.Values.{value_of};
ghost use Rattle.distance.specs.Answer.{counts_of, pairing_of, distance_answer, distance_of};

use distance_cos::measure_cos;
use distance_dot::measure_dot;
use distance_l2::measure_l2;
use jaccard::measure_jaccard;
pub use refused::{Refused, vector_as};
use vector_types::{Mode, Readings, Refusal, Vector, VectorType, View};

#[derive(Clone, Copy, PartialEq, Eq)]
pub enum Distance {
    Cos,
    L2,
    Dot,
    Jaccard,
}

// One of two blobs.
#[derive(Clone, Copy, PartialEq, Eq)]
pub enum Which {
    First,
    Second,
}

// How many readings each of the two vectors holds.
#[derive(Clone, Copy, PartialEq, Eq)]
pub struct Counts {
    pub first: Readings,
    pub second: Readings,
}

// A distance and the readings behind it. NaN is a distance: that of vectors which have no likeness to measure.
#[derive(Clone, Copy)]
pub struct Measured {
    pub distance: f64,
    pub counts: Counts,
}

// Which distance exists for which kind, a table as the customer's paper asks for it. Rows: the distances;
// columns: the kinds; both in the order of their enums.
const EXISTS: [[bool; 5]; 4] = [
    [true, true, true, true, true], // cosine
    [true, true, true, false, true], // L2
    [true, true, true, true, true], // dot
    [true, true, true, true, true], // Jaccard
];

// Whether there is such a distance of vectors of a kind.
fn exists_for(distance: Distance, kind: VectorType) -> bool
    ensures { result ≡ exists_for distance kind }
{
    EXISTS[distance as usize][kind as usize]
}

// The distance of two bodies of one kind and dims.
#[tactic(auto, unfolding(crate::specs::Values::value_of))]
fn measure(distance: Distance, kind: VectorType, dims: usize, a: &[u8], b: &[u8]) -> f64
    requires dims_le_max_dims { dims ≤ max_dims }
    requires a_value { body_fits kind dims (length a.now) ≡ true }
    requires b_value { body_fits kind dims (length b.now) ≡ true }
    requires kind_value { exists_for distance kind ≡ true }
    ensures { some result ≡ value_of distance kind dims a.now b.now }
{
    match distance {
        Distance::Cos => measure_cos(kind, dims, a, b),
        Distance::L2 => measure_l2(kind, dims, a, b),
        Distance::Dot => measure_dot(kind, dims, a, b),
        Distance::Jaccard => measure_jaccard(kind, dims, a, b),
    }
}

// Two views of different dims, and then of different kinds, are refused.
pub fn check_pair(v: View, w: View) -> Result<(), Refusal>
    ensures { result ≡ pairing_of v w }
{
    if v.dims != w.dims {
        return Err(Refusal::DimsDiffer);
    }
    if v.kind != w.kind {
        return Err(Refusal::KindsDiffer);
    }
    Ok(())
}

impl Counts {
    fn of(first: View, second: View) -> Self
        ensures { result ≡ counts_of first second }
    {
        Counts {
            first: first.readings,
            second: second.readings,
        }
    }
}

// The distance of two blobs of the same dims and kind, if there is one for the kind.
#[tactic(auto, using(crate::proofs::Existing::absent))]
pub fn measure_pair(
    distance: Distance,
    first: Vector<'_>,
    second: Vector<'_>,
) -> Result<Measured, Refusal>
    requires { pairing_of first.view second.view ≡ Ok tt }
    ensures { result ≡ distance_answer
        (value_of distance first.entry.view.kind first.entry.view.dims.0 (body_of first.entry.blob.now) (body_of second.entry.blob.now))
        (counts_of first.entry.view second.entry.view) }
{
    let View { kind, dims, .. } = first.view;
    if !exists_for(distance, kind) {
        return Err(Refusal::L2OfFloat1Bit);
    }
    let distance = measure(distance, kind, dims.0, first.body(), second.body());
    let counts = Counts::of(first.view, second.view);
    Ok(Measured { distance, counts })
}

// A distance of two blobs, or the first refusal in the order of the rules.
#[tactic(auto, unfolding(crate::specs::Answer::distance_of, crate::specs::Answer::answer_by, crate::specs::Answer::answer_of_views))]
pub fn vector_distance(
    distance: Distance,
    first: &[u8],
    second: &[u8],
) -> Result<Measured, Refused<Which>>
    ensures { result ≡ distance_of distance first.now second.now }
{
    let first = vector_as(Which::First, Mode::Plain, first)?;
    let second = vector_as(Which::Second, Mode::Plain, second)?;
    check_pair(first.view, second.view)?;
    Ok(measure_pair(distance, first, second)?)
}
