// To Float32Dense and Float64Dense.
ghost use Rattle.std.specs.Prelude.{◌≡◌, ◌*◌, ◌≤◌, length};
ghost use Rattle.promises.specs.Onto.{onto};
ghost use Rattle.vector_types.specs.Layout.{max_dims, ceil};
ghost use Rattle.vector_types.specs.declared.VectorType.TheVariants.{Float32Dense, Float64Dense, Float1Bit};
ghost use Rattle.convert_parts.specs.Result.{result_of};

use bodies::bits::element;

// Puts the elements as f32 at the start of out, and as f64.
pub(crate) fn put_singles(dims: usize, body: &[u8], out: &mut [u8])
    requires dims_le_max_dims { dims ≤ max_dims }
    requires body_len { length body.now ≡ ceil dims 8 }
    requires dims_in_bounds { 4 * dims ≤ length out.old }
    ensures { out.new ≡ onto (result_of Float1Bit Float32Dense dims body.now) out.old }
{
    let mut i = 0;
    while i < dims {
        let x = element(body, i);
        little_endian::put_f32(out, 4 * i, x);
        i += 1;
    }
}

pub(crate) fn put_doubles(dims: usize, body: &[u8], out: &mut [u8])
    requires dims_le_max_dims { dims ≤ max_dims }
    requires body_len { length body.now ≡ ceil dims 8 }
    requires dims_in_bounds { 8 * dims ≤ length out.old }
    ensures { out.new ≡ onto (result_of Float1Bit Float64Dense dims body.now) out.old }
{
    let mut i = 0;
    while i < dims {
        let x = rounding::widen(element(body, i));
        little_endian::put_f64(out, 8 * i, x);
        i += 1;
    }
}
