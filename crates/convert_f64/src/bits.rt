// To Float1Bit.
ghost use Rattle.std.specs.Prelude.{◌≡◌, ◌&&◌, ◌*◌, ◌≤◌, ◌<◌, ltb, length};
ghost use Rattle.std.specs.Float.{binary64};
ghost use Rattle.promises.specs.Onto.{onto};
ghost use Rattle.vector_types.specs.Layout.{max_dims, ceil};
ghost use Rattle.vector_types.specs.declared.VectorType.TheVariants.{Float64Dense, Float1Bit};
ghost use Rattle.bodies.specs.Elements.{dense_element};
ghost use Rattle.convert_parts.specs.Bits.{is_positive, packed_byte};
ghost use Rattle.convert_parts.specs.Result.{result_of};

use convert_parts::bits::weighed;

// Whether there is an element i and it is greater than 0. A pattern is tested as it stands: those of
// the numbers greater than 0 lie above 0 and up to that of infinity.
fn is_positive(dims: usize, body: &[u8], i: usize) -> bool
    requires dims_le_max_dims { dims ≤ max_dims }
    requires body_len { length body.now ≡ 8 * dims }
    ensures { result ≡ (ltb i dims && is_positive (dense_element binary64 body.now i)) }
{
    if dims <= i {
        return false;
    }
    let bits = little_endian::u64_at(body, 8 * i);
    0 < bits && bits <= 0x7ff0_0000_0000_0000
}

// Byte m of the bits.
fn packed_byte(dims: usize, body: &[u8], m: usize) -> u8
    requires dims_le_max_dims { dims ≤ max_dims }
    requires body_len { length body.now ≡ 8 * dims }
    requires m_bound { m < ceil dims 8 }
    ensures { result ≡ packed_byte (λ i. is_positive (dense_element binary64 body.now i)) dims m 8 }
{
    let mut byte: u32 = 0;
    let mut weight: u32 = 1;
    let mut j = 0;
    while j < 8 {
        byte += weighed(is_positive(dims, body, 8 * m + j), weight);
        weight *= 2;
        j += 1;
    }
    byte as u8
}

// Puts the bits at the start of out.
pub(crate) fn put_bits(dims: usize, body: &[u8], out: &mut [u8])
    requires dims_le_max_dims { dims ≤ max_dims }
    requires body_len { length body.now ≡ 8 * dims }
    requires dims_in_bounds { ceil dims 8 ≤ length out.old }
    ensures { out.new ≡ onto (result_of Float64Dense Float1Bit dims body.now) out.old }
{
    let size = (dims + 7) / 8;
    let mut m = 0;
    while m < size {
        out[m] = packed_byte(dims, body, m);
        m += 1;
    }
}
