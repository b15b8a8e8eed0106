// L2 distance: the root of the sum of squared differences. There is none of 1-bit vectors.
#![tactic(auto)]

ghost use Rattle.std.specs.Prelude.{◌≡◌, false, true, ◌+◌, ◌*◌, ◌≤◌, length};
ghost use Rattle.std.proofs.Math.Option.{some};
ghost use Rattle.std.specs.Float.{binary32, binary64};
ghost use Rattle.vector_types.specs.Layout.{max_dims, ceil, has_byte, body_fits};
ghost use Rattle.vector_types.specs.declared.VectorType.TheVariants.{Float32Dense, Float64Dense, Float8};
ghost use Rattle.distance_sums.specs.Dense.{squares_with, l2_by};
ghost use Rattle.distance_sums.specs.Sparse.{squares_rule, sparse_squares};
ghost use Rattle.distance_sums.specs.Values.{l2_of};

use bodies::float8::scale_of;
use bodies::sparse::{Turn, next_turn};
use vector_types::VectorType;

// The distance of two bodies of one kind and dims.
pub fn measure_l2(kind: VectorType, dims: usize, a: &[u8], b: &[u8]) -> f64
    requires dims_le_max_dims { dims ≤ max_dims }
    requires a_value { body_fits kind dims (length a.now) ≡ true }
    requires b_value { body_fits kind dims (length b.now) ≡ true }
    requires kind_value { has_byte 3 kind ≡ false }
    ensures { some result ≡ l2_of kind dims a.now b.now }
{
    match kind {
        VectorType::Float32Dense => vector_f32_distance_l2(dims, a, b),
        VectorType::Float64Dense => vector_f64_distance_l2(dims, a, b),
        VectorType::Float32Sparse => vector_f32_sparse_distance_l2(a, b),
        // Float8, since Float1Bit has no L2 and is not passed
        _ => vector_f8_distance_l2(dims, a, b),
    }
}

// The running sum of an L2, with one pair more.
fn l2_step32(sum: f32, x: f32, y: f32) -> f32
    ensures { result ≡ squares_with binary32 sum x y }
{
    let d = x - y;
    sum + d * d
}

fn l2_step64(sum: f64, x: f64, y: f64) -> f64
    ensures { result ≡ squares_with binary64 sum x y }
{
    let d = x - y;
    sum + d * d
}

// The distance of vectors with this sum.
fn root_of(sum: f64) -> f64
    ensures { result ≡ l2_by sum }
{
    rounding::root64(sum)
}

fn vector_f8_distance_l2(dims: usize, a: &[u8], b: &[u8]) -> f64
    requires dims_le_max_dims { dims ≤ max_dims }
    requires a_len { length a.now ≡ 4 * ceil dims 4 + 8 }
    requires b_len { length b.now ≡ 4 * ceil dims 4 + 8 }
    ensures { some result ≡ l2_of Float8 dims a.now b.now }
{
    let u = scale_of(dims, a).widened();
    let v = scale_of(dims, b).widened();
    let mut sum: f64 = 0.0;
    let mut i = 0;
    while i < dims {
        let x = u.element(a[i]);
        let y = v.element(b[i]);
        sum = l2_step64(sum, x, y);
        i += 1;
    }
    root_of(sum)
}

fn vector_f32_distance_l2(dims: usize, a: &[u8], b: &[u8]) -> f64
    requires dims_le_max_dims { dims ≤ max_dims }
    requires a_len { length a.now ≡ 4 * dims }
    requires b_len { length b.now ≡ 4 * dims }
    ensures { some result ≡ l2_of Float32Dense dims a.now b.now }
{
    let mut sum: f32 = 0.0;
    let mut i = 0;
    while i < dims {
        let x = little_endian::f32_at(a, 4 * i);
        let y = little_endian::f32_at(b, 4 * i);
        sum = l2_step32(sum, x, y);
        i += 1;
    }
    root_of(rounding::widen(sum))
}

fn vector_f64_distance_l2(dims: usize, a: &[u8], b: &[u8]) -> f64
    requires dims_le_max_dims { dims ≤ max_dims }
    requires a_len { length a.now ≡ 8 * dims }
    requires b_len { length b.now ≡ 8 * dims }
    ensures { some result ≡ l2_of Float64Dense dims a.now b.now }
{
    let mut sum: f64 = 0.0;
    let mut i = 0;
    while i < dims {
        let x = little_endian::f64_at(a, 8 * i);
        let y = little_endian::f64_at(b, 8 * i);
        sum = l2_step64(sum, x, y);
        i += 1;
    }
    root_of(sum)
}

// The running sum with one element more, which only one of two sparse vectors has.
fn l2_alone(sum: f32, x: f32) -> f32
    ensures { result ≡ (squares_rule binary32).left sum x }
{
    sum + x * x
}

fn sparse_sum(a: &[u8], b: &[u8]) -> f32
    ensures { result ≡ sparse_squares a.now b.now }
{
    let left = a.len() / 8;
    let right = b.len() / 8;
    let mut sum: f32 = 0.0;
    let mut i = 0;
    let mut j = 0;
    loop {
        match next_turn(a, left, i, b, right, j) {
            Turn::Done => return sum,
            Turn::Both(x, y) => {
                sum = l2_step32(sum, x, y);
                i += 1;
                j += 1;
            }
            Turn::Left(x) => {
                sum = l2_alone(sum, x);
                i += 1;
            }
            Turn::Right(y) => {
                sum = l2_alone(sum, y);
                j += 1;
            }
        }
    }
}

fn vector_f32_sparse_distance_l2(a: &[u8], b: &[u8]) -> f64
    ensures { result ≡ l2_by (sparse_squares a.now b.now) }
{
    let sum = sparse_sum(a, b);
    root_of(rounding::widen(sum))
}
