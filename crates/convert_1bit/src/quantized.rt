// To Float8.
ghost use Rattle.std.specs.Prelude.{◌≡◌, [], ◌∷◌, ◌+◌, ◌*◌, ◌≤◌, length};
ghost use Rattle.promises.specs.Onto.{onto};
ghost use Rattle.vector_types.specs.Layout.{max_dims, ceil};
ghost use Rattle.vector_types.specs.declared.VectorType.TheVariants.{Float1Bit, Float8};
ghost use Rattle.bodies.specs.Elements.{bit_element};
ghost use Rattle.convert_parts.specs.Pieces.{pieces};
ghost use Rattle.convert_parts.specs.Quantized.{quantum};
ghost use Rattle.convert_parts.specs.Result.{result_of};
ghost use Rattle.convert_parts.specs.Inner.Ranges.{range_of};

use bodies::bits::{bit_at, element};
use bodies::float8::Scale;
use convert_parts::filling::put_zeros;
use convert_parts::quantized::{Range, no_range, put_end, quantize, scale_for};

// The range of the elements. Once -1.0 and 1.0 were both met no bit makes it wider.
fn range_of(dims: usize, body: &[u8]) -> Range
    requires { length body.now ≡ ceil dims 8 }
    ensures { result ≡ range_of (bit_element body.now) dims }
{
    let mut found = no_range();
    let mut i = 0;
    while i < dims {
        if found.low < found.high {
            return found;
        }
        let x = element(body, i);
        found = found.wider(x);
        i += 1;
    }
    found
}

// Puts the bytes of the elements at the start of out; where alpha is 0.0 every byte is 0. Bits have two
// bytes; a bit's is looked up, since a branch would often be mispredicted.
fn put_quanta(dims: usize, body: &[u8], scale: Scale, out: &mut [u8])
    requires body_len { length body.now ≡ ceil dims 8 }
    requires dims_in_bounds { dims ≤ length out.old }
    ensures { out.new ≡ onto (pieces (λ i. quantum scale (bit_element body.now i) ∷ []) dims) out.old }
{
    if scale.alpha == 0.0 {
        put_zeros(dims, out);
        return;
    }
    let clear = quantize(scale, -1.0);
    let set = quantize(scale, 1.0);
    let bytes = [clear, set];
    let mut i = 0;
    while i < dims {
        let bit = bit_at(body, i);
        out[i] = bytes[bit];
        i += 1;
    }
}

// Puts the bytes, and the scale that fits the elements after them.
pub(crate) fn put_quantized(dims: usize, body: &[u8], out: &mut [u8])
    requires dims_le_max_dims { dims ≤ max_dims }
    requires body_len { length body.now ≡ ceil dims 8 }
    requires dims_in_bounds { 4 * ceil dims 4 + 8 ≤ length out.old }
    ensures { out.new ≡ onto (result_of Float1Bit Float8 dims body.now) out.old }
{
    let found = range_of(dims, body);
    let scale = scale_for(dims, found);
    put_quanta(dims, body, scale, out);
    put_end(dims, scale, &mut out[dims..]);
}
