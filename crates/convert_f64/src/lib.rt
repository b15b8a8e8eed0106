// Conversions from Float64Dense.
#![tactic(auto)]

mod bits;
mod dense;
mod quantized;
mod sparse;

ghost use Rattle.std.specs.Prelude.{◌≡◌, ◌≤◌, length};
ghost use Rattle.promises.specs.Onto.{onto};
ghost use Rattle.vector_types.specs.declared.VectorType.TheVariants.{Float64Dense};
ghost use Rattle.convert_parts.specs.Result.{result_of};
ghost use Rattle.convert_parts.specs.Inner.Fitting.{Fitting};

use bits::put_bits;
use convert_parts::filling::put_copy;
use dense::put_singles;
use quantized::put_quantized;
use sparse::{count_stored, put_sparse};
use vector_types::VectorType;

// How long the body is as the target's kind.
pub fn result_length(target: VectorType, dims: usize, body: &[u8]) -> usize
    requires { Fitting Float64Dense dims body.now }
    ensures { result ≡ length (result_of Float64Dense target dims body.now) }
{
    match target {
        VectorType::Float32Dense => 4 * dims,
        VectorType::Float64Dense => body.len(),
        VectorType::Float32Sparse => 8 * count_stored(dims, body),
        VectorType::Float1Bit => (dims + 7) / 8,
        VectorType::Float8 => (dims + 3) / 4 * 4 + 8,
    }
}

// Puts the body as the target's kind, which has `size` bytes, at the start of out. Not inlined: beside the other
// kinds' loops these, and some of those, take a quarter longer.
#[inline(never)]
pub fn put_result(target: VectorType, dims: usize, body: &[u8], size: usize, out: &mut [u8])
    requires fitting { Fitting Float64Dense dims body.now }
    requires size_value { size ≡ length (result_of Float64Dense target dims body.now) }
    requires size_in_bounds { size ≤ length out.old }
    ensures { out.new ≡ onto (result_of Float64Dense target dims body.now) out.old }
{
    match target {
        VectorType::Float32Dense => put_singles(dims, body, out),
        VectorType::Float64Dense => put_copy(body, out),
        VectorType::Float32Sparse => put_sparse(dims, body, size / 8, out),
        VectorType::Float1Bit => put_bits(dims, body, out),
        VectorType::Float8 => put_quantized(dims, body, out),
    }
}
