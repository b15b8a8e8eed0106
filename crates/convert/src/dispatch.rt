// By the kind that is converted from.
ghost use Rattle.std.specs.Prelude.{◌≡◌, cond, ◌&&◌, ◌*◌, ◌≤◌, length};
ghost use Rattle.promises.specs.Onto.{onto};
ghost use Rattle.vector_types.specs.Layout.{max_dims, has_byte, has_trailing_count};
ghost use Rattle.convert_parts.specs.Result.{result_of, scratch_body};
ghost use Rattle.convert_parts.specs.Inner.Fitting.{Fitting};

use vector_types::VectorType;

// How much scratch a pair takes: only a sparse body is converted through it.
pub(crate) fn scratch_length(kind: VectorType, target: VectorType, dims: usize) -> usize
    requires { dims ≤ max_dims }
    ensures { result ≡ cond (has_byte 9 kind && has_trailing_count target) (4 * dims) 0 }
{
    match kind {
        VectorType::Float32Sparse => convert_sparse::scratch_length(target, dims),
        VectorType::Float32Dense => 0,
        VectorType::Float64Dense => 0,
        VectorType::Float1Bit => 0,
        VectorType::Float8 => 0,
    }
}

// How long the body is as the target's kind.
pub(crate) fn result_length(kind: VectorType, target: VectorType, dims: usize, body: &[u8]) -> usize
    requires { Fitting kind dims body.now }
    ensures { result ≡ length (result_of kind target dims body.now) }
{
    match kind {
        VectorType::Float32Dense => convert_f32::result_length(target, dims, body),
        VectorType::Float64Dense => convert_f64::result_length(target, dims, body),
        VectorType::Float32Sparse => convert_sparse::result_length(target, dims, body),
        VectorType::Float1Bit => convert_1bit::result_length(target, dims, body),
        VectorType::Float8 => convert_float8::result_length(target, dims, body),
    }
}

// Puts the body as the target's kind, which has `size` bytes, at the start of out.
pub(crate) fn put_result(
    kind: VectorType,
    target: VectorType,
    dims: usize,
    body: &[u8],
    size: usize,
    scratch: &mut [u8],
    out: &mut [u8],
)
    requires fitting { Fitting kind dims body.now }
    requires size_value { size ≡ length (result_of kind target dims body.now) }
    requires size_in_bounds { size ≤ length out.old }
    requires body_in_bounds { length (scratch_body kind target dims body.now) ≤ length scratch.old }
    ensures scratch_after { scratch.new ≡ onto (scratch_body kind target dims body.now) scratch.old }
    ensures out_after { out.new ≡ onto (result_of kind target dims body.now) out.old }
{
    match kind {
        VectorType::Float32Dense => convert_f32::put_result(target, dims, body, size, out),
        VectorType::Float64Dense => convert_f64::put_result(target, dims, body, size, out),
        VectorType::Float32Sparse => {
            convert_sparse::put_result(target, dims, body, size, scratch, out)
        }
        VectorType::Float1Bit => convert_1bit::put_result(target, dims, body, out),
        VectorType::Float8 => convert_float8::put_result(target, dims, body, size, out),
    }
}
