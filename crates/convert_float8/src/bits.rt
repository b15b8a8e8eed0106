// To Float1Bit.
ghost use Rattle.std.specs.Prelude.{◌≡◌, ◌&&◌, ◌+◌, ◌*◌, ◌≤◌, ◌<◌, ltb, length};
ghost use Rattle.std.specs.Float.{binary32};
ghost use Rattle.promises.specs.Onto.{onto};
ghost use Rattle.vector_types.specs.Layout.{max_dims, ceil};
ghost use Rattle.vector_types.specs.declared.VectorType.TheVariants.{Float1Bit, Float8};
ghost use Rattle.bodies.specs.Elements.{float8_element};
ghost use Rattle.bodies.specs.Scale.{scale_in};
ghost use Rattle.convert_parts.specs.Bits.{is_positive, packed_byte};
ghost use Rattle.convert_parts.specs.Result.{result_of};

use bodies::float8::{Scale, scale_of};
use convert_parts::bits::weighed;

// Whether there is an element i and it is greater than 0.
fn is_positive(scale: Scale, dims: usize, body: &[u8], i: usize) -> bool
    requires body_len { length body.now ≡ 4 * ceil dims 4 + 8 }
    requires scale_value { scale ≡ scale_in dims body.now }
    ensures { result ≡ (ltb i dims && is_positive (float8_element binary32 dims body.now i)) }
{
    if dims <= i {
        return false;
    }
    0.0 < scale.element(body[i])
}

// Byte m of the bits.
fn packed_byte(dims: usize, body: &[u8], m: usize) -> u8
    requires dims_le_max_dims { dims ≤ max_dims }
    requires body_len { length body.now ≡ 4 * ceil dims 4 + 8 }
    requires m_bound { m < ceil dims 8 }
    ensures { result ≡ packed_byte (λ i. is_positive (float8_element binary32 dims body.now i)) dims m 8 }
{
    let scale = scale_of(dims, body);
    let mut byte: u32 = 0;
    let mut weight: u32 = 1;
    let mut j = 0;
    while j < 8 {
        byte += weighed(is_positive(scale, dims, body, 8 * m + j), weight);
        weight *= 2;
        j += 1;
    }
    byte as u8
}

// Puts the bits at the start of out.
pub(crate) fn put_bits(dims: usize, body: &[u8], out: &mut [u8])
    requires dims_le_max_dims { dims ≤ max_dims }
    requires body_len { length body.now ≡ 4 * ceil dims 4 + 8 }
    requires dims_in_bounds { ceil dims 8 ≤ length out.old }
    ensures { out.new ≡ onto (result_of Float8 Float1Bit dims body.now) out.old }
{
    let size = (dims + 7) / 8;
    let mut m = 0;
    while m < size {
        out[m] = packed_byte(dims, body, m);
        m += 1;
    }
}
