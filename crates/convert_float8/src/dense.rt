// To Float32Dense and Float64Dense.
ghost use Rattle.std.specs.Prelude.{◌≡◌, ◌+◌, ◌*◌, ◌≤◌, length};
ghost use Rattle.promises.specs.Onto.{onto};
ghost use Rattle.vector_types.specs.Layout.{max_dims, ceil};
ghost use Rattle.vector_types.specs.declared.VectorType.TheVariants.{Float32Dense, Float64Dense, Float8};
ghost use Rattle.convert_parts.specs.Result.{result_of};

use bodies::float8::scale_of;

// Puts the elements, worked out in f32, at the start of out, and in f64.
pub(crate) fn put_singles(dims: usize, body: &[u8], out: &mut [u8])
    requires dims_le_max_dims { dims ≤ max_dims }
    requires body_len { length body.now ≡ 4 * ceil dims 4 + 8 }
    requires dims_in_bounds { 4 * dims ≤ length out.old }
    ensures { out.new ≡ onto (result_of Float8 Float32Dense dims body.now) out.old }
{
    let scale = scale_of(dims, body);
    let mut i = 0;
    while i < dims {
        let x = scale.element(body[i]);
        little_endian::put_f32(out, 4 * i, x);
        i += 1;
    }
}

pub(crate) fn put_doubles(dims: usize, body: &[u8], out: &mut [u8])
    requires dims_le_max_dims { dims ≤ max_dims }
    requires body_len { length body.now ≡ 4 * ceil dims 4 + 8 }
    requires dims_in_bounds { 8 * dims ≤ length out.old }
    ensures { out.new ≡ onto (result_of Float8 Float64Dense dims body.now) out.old }
{
    let scale = scale_of(dims, body);
    let wide = scale.widened();
    let mut i = 0;
    while i < dims {
        let x = wide.element(body[i]);
        little_endian::put_f64(out, 8 * i, x);
        i += 1;
    }
}
