// Jaccard distance: 1 - the sum of the lesser elements / the sum of the greater ones.
#![tactic(auto)]

mod sums;

ghost use Rattle.std.specs.Prelude.{◌≡◌, true, ◌+◌, ◌*◌, ◌≤◌, length};
ghost use Rattle.std.specs.Float.{binary32};
ghost use Rattle.vector_types.specs.Layout.{max_dims, ceil, body_fits};
ghost use Rattle.vector_types.specs.declared.VectorType.TheVariants.{Float32Dense, Float64Dense, Float1Bit, Float8};
ghost use Rattle.distance_sums.specs.Dense.{jaccard_by};
ghost use Rattle.distance_sums.specs.Inner.Shares.{sparse_shares};
ghost use Rattle.distance_sums.specs.OneBit.{bit_jaccard};
ghost use Rattle.distance_sums.specs.Values.{jaccard_of};
ghost use Rattle.jaccard.specs.Inner.Sums.{shares32};

use bodies::float8::scale_of;
use bodies::sparse::{Turn, next_turn};
use distance_sums::bits::{Overlap, overlapping};
use sums::{JaccardSums32, JaccardSums64};
use vector_types::VectorType;

// The distance of two bodies of one kind and dims.
pub fn measure_jaccard(kind: VectorType, dims: usize, a: &[u8], b: &[u8]) -> f64
    requires dims_le_max_dims { dims ≤ max_dims }
    requires a_value { body_fits kind dims (length a.now) ≡ true }
    requires b_value { body_fits kind dims (length b.now) ≡ true }
    ensures { result ≡ jaccard_of kind dims a.now b.now }
{
    match kind {
        VectorType::Float32Dense => vector_f32_distance_jaccard(dims, a, b),
        VectorType::Float64Dense => vector_f64_distance_jaccard(dims, a, b),
        VectorType::Float32Sparse => vector_f32_sparse_distance_jaccard(a, b),
        VectorType::Float1Bit => vector_1bit_distance_jaccard(dims, a, b),
        VectorType::Float8 => vector_f8_distance_jaccard(dims, a, b),
    }
}

// 1 - the bits set in both / the bits set in either.
fn bit_jaccard(o: Overlap) -> f64
    ensures { result ≡ bit_jaccard o }
{
    if o.either == 0 {
        return 0.0 / 0.0;
    }
    1.0 - o.both as f64 / o.either as f64
}

fn vector_1bit_distance_jaccard(dims: usize, a: &[u8], b: &[u8]) -> f64
    requires dims_le_max_dims { dims ≤ max_dims }
    requires a_len { length a.now ≡ ceil dims 8 }
    requires b_len { length b.now ≡ ceil dims 8 }
    ensures { result ≡ jaccard_of Float1Bit dims a.now b.now }
{
    let o = overlapping(a, b);
    bit_jaccard(o)
}

fn vector_f8_distance_jaccard(dims: usize, a: &[u8], b: &[u8]) -> f64
    requires dims_le_max_dims { dims ≤ max_dims }
    requires a_len { length a.now ≡ 4 * ceil dims 4 + 8 }
    requires b_len { length b.now ≡ 4 * ceil dims 4 + 8 }
    ensures { result ≡ jaccard_of Float8 dims a.now b.now }
{
    let u = scale_of(dims, a).widened();
    let v = scale_of(dims, b).widened();
    let mut sums = JaccardSums64::new();
    let mut i = 0;
    while i < dims {
        sums = sums.step(u.element(a[i]), v.element(b[i]));
        i += 1;
    }
    sums.distance()
}

fn vector_f32_distance_jaccard(dims: usize, a: &[u8], b: &[u8]) -> f64
    requires dims_le_max_dims { dims ≤ max_dims }
    requires a_len { length a.now ≡ 4 * dims }
    requires b_len { length b.now ≡ 4 * dims }
    ensures { result ≡ jaccard_of Float32Dense dims a.now b.now }
{
    let mut sums = JaccardSums32::new();
    let mut i = 0;
    while i < dims {
        sums = sums.step_bits(
            little_endian::u32_at(a, 4 * i),
            little_endian::u32_at(b, 4 * i),
        );
        i += 1;
    }
    sums.distance()
}

fn vector_f64_distance_jaccard(dims: usize, a: &[u8], b: &[u8]) -> f64
    requires dims_le_max_dims { dims ≤ max_dims }
    requires a_len { length a.now ≡ 8 * dims }
    requires b_len { length b.now ≡ 8 * dims }
    ensures { result ≡ jaccard_of Float64Dense dims a.now b.now }
{
    let mut sums = JaccardSums64::new();
    let mut i = 0;
    while i < dims {
        sums = sums.step_bits(
            little_endian::u64_at(a, 8 * i),
            little_endian::u64_at(b, 8 * i),
        );
        i += 1;
    }
    sums.distance()
}

// An element that only one vector has is compared with 0.
fn sparse_sums(a: &[u8], b: &[u8]) -> JaccardSums32
    ensures { shares32 result ≡ sparse_shares a.now b.now }
{
    let left = a.len() / 8;
    let right = b.len() / 8;
    let mut sums = JaccardSums32::new();
    let mut i = 0;
    let mut j = 0;
    loop {
        match next_turn(a, left, i, b, right, j) {
            Turn::Done => return sums,
            Turn::Both(x, y) => {
                sums = sums.step(x, y);
                i += 1;
                j += 1;
            }
            Turn::Left(x) => {
                sums = sums.alone(x);
                i += 1;
            }
            Turn::Right(y) => {
                sums = sums.alone(y);
                j += 1;
            }
        }
    }
}

fn vector_f32_sparse_distance_jaccard(a: &[u8], b: &[u8]) -> f64
    ensures { result ≡ jaccard_by binary32 (sparse_shares a.now b.now) }
{
    let sums = sparse_sums(a, b);
    sums.distance()
}
