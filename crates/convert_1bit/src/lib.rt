// Conversions from Float1Bit.
#![tactic(auto)]

mod dense;
mod quantized;
mod sparse;

ghost use Rattle.std.specs.Prelude.{◌≡◌, ◌≤◌, length};
ghost use Rattle.promises.specs.Onto.{onto};
ghost use Rattle.vector_types.specs.declared.VectorType.TheVariants.{Float1Bit};
ghost use Rattle.convert_parts.specs.Result.{result_of};
ghost use Rattle.convert_parts.specs.Inner.Fitting.{Fitting};

use convert_parts::filling::put_copy;
use dense::{put_doubles, put_singles};
use quantized::put_quantized;
use sparse::put_sparse;
use vector_types::VectorType;

// How long the body is as the target's kind. All elements of a sparse one are stored.
pub fn result_length(target: VectorType, dims: usize, body: &[u8]) -> usize
    requires { Fitting Float1Bit dims body.now }
    ensures { result ≡ length (result_of Float1Bit target dims body.now) }
{
    match target {
        VectorType::Float32Dense => 4 * dims,
        VectorType::Float64Dense => 8 * dims,
        VectorType::Float32Sparse => 8 * dims,
        VectorType::Float1Bit => body.len(),
        VectorType::Float8 => (dims + 3) / 4 * 4 + 8,
    }
}

// Puts the body as the target's kind at the start of out.
pub fn put_result(target: VectorType, dims: usize, body: &[u8], out: &mut [u8])
    requires fitting { Fitting Float1Bit dims body.now }
    requires body_in_bounds { length (result_of Float1Bit target dims body.now) ≤ length out.old }
    ensures { out.new ≡ onto (result_of Float1Bit target dims body.now) out.old }
{
    match target {
        VectorType::Float32Dense => put_singles(dims, body, out),
        VectorType::Float64Dense => put_doubles(dims, body, out),
        VectorType::Float32Sparse => put_sparse(dims, body, out),
        VectorType::Float1Bit => put_copy(body, out),
        VectorType::Float8 => put_quantized(dims, body, out),
    }
}
