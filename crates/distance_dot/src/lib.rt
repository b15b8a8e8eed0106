// Dot distance: the negated sum of products.
#![tactic(auto)]

ghost use Rattle.std.specs.Prelude.{◌≡◌, true, ◌+◌, ◌*◌, ◌≤◌, length};
ghost use Rattle.vector_types.specs.Layout.{max_dims, ceil, body_fits};
ghost use Rattle.vector_types.specs.declared.VectorType.TheVariants.{Float32Dense, Float64Dense, Float1Bit, Float8};
ghost use Rattle.distance_sums.specs.Dense.{dots_with, dot_by};
ghost use Rattle.distance_sums.specs.Sparse.{sparse_dots};
ghost use Rattle.distance_sums.specs.OneBit.{bit_dot};
ghost use Rattle.distance_sums.specs.Values.{dot_of};

use bodies::float8::scale_of;
use bodies::sparse::{Turn, next_turn};
use distance_sums::bits::differing;
use distance_sums::float8::{dot_of, totals_of};
use vector_types::VectorType;

// The distance of two bodies of one kind and dims.
pub fn measure_dot(kind: VectorType, dims: usize, a: &[u8], b: &[u8]) -> f64
    requires dims_le_max_dims { dims ≤ max_dims }
    requires a_value { body_fits kind dims (length a.now) ≡ true }
    requires b_value { body_fits kind dims (length b.now) ≡ true }
    ensures { result ≡ dot_of kind dims a.now b.now }
{
    match kind {
        VectorType::Float32Dense => vector_f32_distance_dot(dims, a, b),
        VectorType::Float64Dense => vector_f64_distance_dot(dims, a, b),
        VectorType::Float32Sparse => vector_f32_sparse_distance_dot(a, b),
        VectorType::Float1Bit => vector_1bit_distance_dot(dims, a, b),
        VectorType::Float8 => vector_f8_distance_dot(dims, a, b),
    }
}

// Bits stand for 1 and -1, so the dot is dims - 2h, with h the count of differing bits.
fn bit_dot(dims: u32, count: u32) -> f64
    requires dims_le_max_dims { dims ≤ max_dims }
    requires count_le_max_dims { count ≤ max_dims }
    ensures { result ≡ bit_dot dims count }
{
    -(dims as f64 - 2.0 * count as f64)
}

fn vector_1bit_distance_dot(dims: usize, a: &[u8], b: &[u8]) -> f64
    requires dims_le_max_dims { dims ≤ max_dims }
    requires a_len { length a.now ≡ ceil dims 8 }
    requires b_len { length b.now ≡ ceil dims 8 }
    ensures { result ≡ dot_of Float1Bit dims a.now b.now }
{
    let count = differing(a, b);
    bit_dot(dims as u32, count)
}

fn vector_f8_distance_dot(dims: usize, a: &[u8], b: &[u8]) -> f64
    requires dims_le_max_dims { dims ≤ max_dims }
    requires a_len { length a.now ≡ 4 * ceil dims 4 + 8 }
    requires b_len { length b.now ≡ 4 * ceil dims 4 + 8 }
    ensures { result ≡ dot_of Float8 dims a.now b.now }
{
    let u = scale_of(dims, a).widened();
    let v = scale_of(dims, b).widened();
    let t = totals_of(dims, a, b);
    let dot = dot_of(u, v, t, dims as u32);
    -dot
}

// The running sum of a dot, with one pair more.
fn dot_step(sum: f64, x: f64, y: f64) -> f64
    ensures { result ≡ dots_with sum x y }
{
    sum + x * y
}

fn vector_f32_distance_dot(dims: usize, a: &[u8], b: &[u8]) -> f64
    requires dims_le_max_dims { dims ≤ max_dims }
    requires a_len { length a.now ≡ 4 * dims }
    requires b_len { length b.now ≡ 4 * dims }
    ensures { result ≡ dot_of Float32Dense dims a.now b.now }
{
    let mut sum: f64 = 0.0;
    let mut i = 0;
    while i < dims {
        let x = little_endian::wide_at(a, 4 * i);
        let y = little_endian::wide_at(b, 4 * i);
        sum = dot_step(sum, x, y);
        i += 1;
    }
    -sum
}

fn vector_f64_distance_dot(dims: usize, a: &[u8], b: &[u8]) -> f64
    requires dims_le_max_dims { dims ≤ max_dims }
    requires a_len { length a.now ≡ 8 * dims }
    requires b_len { length b.now ≡ 8 * dims }
    ensures { result ≡ dot_of Float64Dense dims a.now b.now }
{
    let mut sum: f64 = 0.0;
    let mut i = 0;
    while i < dims {
        let x = little_endian::f64_at(a, 8 * i);
        let y = little_endian::f64_at(b, 8 * i);
        sum = dot_step(sum, x, y);
        i += 1;
    }
    -sum
}

fn sparse_sum(a: &[u8], b: &[u8]) -> f64
    ensures { result ≡ sparse_dots a.now b.now }
{
    let left = a.len() / 8;
    let right = b.len() / 8;
    let mut sum: f64 = 0.0;
    let mut i = 0;
    let mut j = 0;
    loop {
        match next_turn(a, left, i, b, right, j) {
            Turn::Done => return sum,
            Turn::Both(x, y) => {
                sum = dot_step(sum, rounding::widen(x), rounding::widen(y));
                i += 1;
                j += 1;
            }
            Turn::Left(_) => i += 1,
            Turn::Right(_) => j += 1,
        }
    }
}

fn vector_f32_sparse_distance_dot(a: &[u8], b: &[u8]) -> f64
    ensures { result ≡ dot_by (sparse_dots a.now b.now) }
{
    let sum = sparse_sum(a, b);
    -sum
}
