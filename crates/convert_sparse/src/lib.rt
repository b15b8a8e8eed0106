// Conversions from Float32Sparse: to 1-bit and Float8 through a dense body in scratch.
#![tactic(auto)]

mod dense;

ghost use Rattle.std.specs.Prelude.{◌≡◌, cond, ◌*◌, ◌≤◌, length};
ghost use Rattle.std.specs.Float.{binary32};
ghost use Rattle.promises.specs.Onto.{onto};
ghost use Rattle.vector_types.specs.Layout.{max_dims, has_trailing_count};
ghost use Rattle.vector_types.specs.declared.VectorType.TheVariants.{Float32Dense, Float32Sparse};
ghost use Rattle.convert_parts.specs.Spread.{spread_body};
ghost use Rattle.convert_parts.specs.Result.{result_of, scratch_body};
ghost use Rattle.convert_parts.specs.Inner.Fitting.{Fitting};

use convert_parts::filling::put_copy;
use dense::{put_doubles, put_singles};
use vector_types::VectorType;

// How long the body is as the target's kind.
pub fn result_length(target: VectorType, dims: usize, body: &[u8]) -> usize
    requires { Fitting Float32Sparse dims body.now }
    ensures { result ≡ length (result_of Float32Sparse target dims body.now) }
{
    match target {
        VectorType::Float32Dense => 4 * dims,
        VectorType::Float64Dense => 8 * dims,
        VectorType::Float32Sparse => body.len(),
        VectorType::Float1Bit => (dims + 7) / 8,
        VectorType::Float8 => (dims + 3) / 4 * 4 + 8,
    }
}

// How much scratch it takes: 4 bytes an element to 1-bit and Float8, and else none.
pub fn scratch_length(target: VectorType, dims: usize) -> usize
    requires { dims ≤ max_dims }
    ensures { result ≡ cond (has_trailing_count target) (4 * dims) 0 }
{
    match target {
        VectorType::Float1Bit => 4 * dims,
        VectorType::Float8 => 4 * dims,
        VectorType::Float32Dense => 0,
        VectorType::Float64Dense => 0,
        VectorType::Float32Sparse => 0,
    }
}

// In two steps: the dense body is left at the start of scratch.
fn put_through(
    target: VectorType,
    dims: usize,
    body: &[u8],
    size: usize,
    scratch: &mut [u8],
    out: &mut [u8],
)
    requires fitting { Fitting Float32Sparse dims body.now }
    requires size_value { size ≡ length (result_of Float32Dense target dims (spread_body binary32 dims body.now)) }
    requires size_in_bounds { size ≤ length out.old }
    requires dims_in_bounds { 4 * dims ≤ length scratch.old }
    ensures scratch_after { scratch.new ≡ onto (spread_body binary32 dims body.now) scratch.old }
    ensures out_after { out.new ≡ onto (result_of Float32Dense target dims (spread_body binary32 dims body.now)) out.old }
{
    put_singles(dims, body, scratch);
    convert_f32::put_result(target, dims, &scratch[..4 * dims], size, out);
}

// Puts the body as the target's kind, which has `size` bytes, at the start of out.
pub fn put_result(
    target: VectorType,
    dims: usize,
    body: &[u8],
    size: usize,
    scratch: &mut [u8],
    out: &mut [u8],
)
    requires fitting { Fitting Float32Sparse dims body.now }
    requires size_value { size ≡ length (result_of Float32Sparse target dims body.now) }
    requires size_in_bounds { size ≤ length out.old }
    requires body_in_bounds { length (scratch_body Float32Sparse target dims body.now) ≤ length scratch.old }
    ensures scratch_after { scratch.new ≡ onto (scratch_body Float32Sparse target dims body.now) scratch.old }
    ensures out_after { out.new ≡ onto (result_of Float32Sparse target dims body.now) out.old }
{
    match target {
        VectorType::Float32Dense => put_singles(dims, body, out),
        VectorType::Float64Dense => put_doubles(dims, body, out),
        VectorType::Float32Sparse => put_copy(body, out),
        VectorType::Float1Bit => put_through(target, dims, body, size, scratch, out),
        VectorType::Float8 => put_through(target, dims, body, size, scratch, out),
    }
}
