// Cosine distance.
#![tactic(auto)]

mod sums;

ghost use Rattle.std.specs.Prelude.{◌≡◌, true, ◌+◌, ◌*◌, ◌≤◌, length};
ghost use Rattle.vector_types.specs.Layout.{max_dims, ceil, body_fits};
ghost use Rattle.vector_types.specs.declared.VectorType.TheVariants.{Float32Dense, Float64Dense, Float1Bit, Float8};
ghost use Rattle.distance_sums.specs.Sparse.{sparse_products, sparse_cosine};
ghost use Rattle.distance_sums.specs.Values.{cosine_of};
ghost use Rattle.distance_cos.specs.Inner.Sums.{products32};

use bodies::float8::scale_of;
use bodies::sparse::{Turn, next_turn};
use distance_sums::bits::differing;
use distance_sums::float8::{dot_of, norm_of, totals_of};
use sums::{CosSums32, CosSums64};
use vector_types::VectorType;

// The distance of two bodies of one kind and dims.
pub fn measure_cos(kind: VectorType, dims: usize, a: &[u8], b: &[u8]) -> f64
    requires dims_le_max_dims { dims ≤ max_dims }
    requires a_value { body_fits kind dims (length a.now) ≡ true }
    requires b_value { body_fits kind dims (length b.now) ≡ true }
    ensures { result ≡ cosine_of kind dims a.now b.now }
{
    match kind {
        VectorType::Float32Dense => vector_f32_distance_cos(dims, a, b),
        VectorType::Float64Dense => vector_f64_distance_cos(dims, a, b),
        VectorType::Float32Sparse => vector_f32_sparse_distance_cos(a, b),
        VectorType::Float1Bit => vector_1bit_distance_cos(dims, a, b),
        VectorType::Float8 => vector_f8_distance_cos(dims, a, b),
    }
}

// The count of differing bits.
fn vector_1bit_distance_cos(dims: usize, a: &[u8], b: &[u8]) -> f64
    requires dims_le_max_dims { dims ≤ max_dims }
    requires a_len { length a.now ≡ ceil dims 8 }
    requires b_len { length b.now ≡ ceil dims 8 }
    ensures { result ≡ cosine_of Float1Bit dims a.now b.now }
{
    let count = differing(a, b);
    count as f64
}

fn vector_f8_distance_cos(dims: usize, a: &[u8], b: &[u8]) -> f64
    requires dims_le_max_dims { dims ≤ max_dims }
    requires a_len { length a.now ≡ 4 * ceil dims 4 + 8 }
    requires b_len { length b.now ≡ 4 * ceil dims 4 + 8 }
    ensures { result ≡ cosine_of Float8 dims a.now b.now }
{
    let u = scale_of(dims, a).widened();
    let v = scale_of(dims, b).widened();
    let t = totals_of(dims, a, b);
    let d = dims as u32;
    let dot = dot_of(u, v, t, d);
    let norm1 = norm_of(u, t.squares1, t.sum1, d);
    let norm2 = norm_of(v, t.squares2, t.sum2, d);
    1.0 - dot / rounding::root64(norm1 * norm2)
}

fn vector_f32_distance_cos(dims: usize, a: &[u8], b: &[u8]) -> f64
    requires dims_le_max_dims { dims ≤ max_dims }
    requires a_len { length a.now ≡ 4 * dims }
    requires b_len { length b.now ≡ 4 * dims }
    ensures { result ≡ cosine_of Float32Dense dims a.now b.now }
{
    let mut sums = CosSums32::new();
    let mut i = 0;
    while i < dims {
        sums = sums.step(
            little_endian::f32_at(a, 4 * i),
            little_endian::f32_at(b, 4 * i),
        );
        i += 1;
    }
    sums.distance()
}

fn vector_f64_distance_cos(dims: usize, a: &[u8], b: &[u8]) -> f64
    requires dims_le_max_dims { dims ≤ max_dims }
    requires a_len { length a.now ≡ 8 * dims }
    requires b_len { length b.now ≡ 8 * dims }
    ensures { result ≡ cosine_of Float64Dense dims a.now b.now }
{
    let mut sums = CosSums64::new();
    let mut i = 0;
    while i < dims {
        sums = sums.step(
            little_endian::f64_at(a, 8 * i),
            little_endian::f64_at(b, 8 * i),
        );
        i += 1;
    }
    sums.distance()
}

fn sparse_sums(a: &[u8], b: &[u8]) -> CosSums32
    ensures { products32 result ≡ sparse_products a.now b.now }
{
    let left = a.len() / 8;
    let right = b.len() / 8;
    let mut sums = CosSums32::new();
    let mut i = 0;
    let mut j = 0;
    loop {
        match next_turn(a, left, i, b, right, j) {
            Turn::Done => return sums,
            Turn::Both(x, y) => {
                sums = sums.step(x, y);
                i += 1;
                j += 1;
            }
            Turn::Left(x) => {
                sums = sums.left(x);
                i += 1;
            }
            Turn::Right(y) => {
                sums = sums.right(y);
                j += 1;
            }
        }
    }
}

fn vector_f32_sparse_distance_cos(a: &[u8], b: &[u8]) -> f64
    ensures { result ≡ sparse_cosine (sparse_products a.now b.now) }
{
    let sums = sparse_sums(a, b);
    sums.sparse_distance()
}
