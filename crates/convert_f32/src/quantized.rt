// To Float8.
ghost use Rattle.std.specs.Prelude.{◌≡◌, [], ◌∷◌, ◌+◌, ◌*◌, ◌≤◌, length};
ghost use Rattle.std.specs.Float.{binary32};
ghost use Rattle.promises.specs.Onto.{onto};
ghost use Rattle.vector_types.specs.Layout.{max_dims, ceil};
ghost use Rattle.vector_types.specs.declared.VectorType.TheVariants.{Float32Dense, Float8};
ghost use Rattle.bodies.specs.Elements.{dense_element};
ghost use Rattle.convert_parts.specs.Pieces.{pieces};
ghost use Rattle.convert_parts.specs.Quantized.{quantum};
ghost use Rattle.convert_parts.specs.Result.{result_of};
ghost use Rattle.convert_parts.specs.Inner.Ranges.{range_of};

use bodies::float8::Scale;
use convert_parts::filling::put_zeros;
use convert_parts::quantized::{Range, no_range, put_end, quantize, scale_for};

// The range of the elements.
fn range_of(dims: usize, body: &[u8]) -> Range
    requires { length body.now ≡ 4 * dims }
    ensures { result ≡ range_of (dense_element binary32 body.now) dims }
{
    let mut found = no_range();
    let mut i = 0;
    while i < dims {
        let x = little_endian::f32_at(body, 4 * i);
        found = found.wider(x);
        i += 1;
    }
    found
}

// Puts the bytes of the elements at the start of out; where alpha is 0.0 every byte is 0.
fn put_quanta(dims: usize, body: &[u8], scale: Scale, out: &mut [u8])
    requires body_len { length body.now ≡ 4 * dims }
    requires dims_in_bounds { dims ≤ length out.old }
    ensures { out.new ≡ onto (pieces (λ i. quantum scale (dense_element binary32 body.now i) ∷ []) dims) out.old }
{
    if scale.alpha == 0.0 {
        put_zeros(dims, out);
        return;
    }
    let mut i = 0;
    while i < dims {
        let x = little_endian::f32_at(body, 4 * i);
        out[i] = quantize(scale, x);
        i += 1;
    }
}

// Puts the bytes, and the scale that fits the elements after them.
pub(crate) fn put_quantized(dims: usize, body: &[u8], out: &mut [u8])
    requires dims_le_max_dims { dims ≤ max_dims }
    requires body_len { length body.now ≡ 4 * dims }
    requires dims_in_bounds { 4 * ceil dims 4 + 8 ≤ length out.old }
    ensures { out.new ≡ onto (result_of Float32Dense Float8 dims body.now) out.old }
{
    let found = range_of(dims, body);
    let scale = scale_for(dims, found);
    put_quanta(dims, body, scale, out);
    put_end(dims, scale, &mut out[dims..]);
}
