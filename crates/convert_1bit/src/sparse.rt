// To Float32Sparse.
ghost use Rattle.std.specs.Prelude.{◌≡◌, ◌*◌, ◌≤◌, length};
ghost use Rattle.promises.specs.Onto.{onto};
ghost use Rattle.vector_types.specs.Layout.{max_dims, ceil};
ghost use Rattle.vector_types.specs.declared.VectorType.TheVariants.{Float32Sparse, Float1Bit};
ghost use Rattle.convert_parts.specs.Result.{result_of};

use bodies::bits::element;
use convert_parts::entries::put_entry;

// Puts the elements, which are all stored, at the start of out: their values, then their indices.
pub(crate) fn put_sparse(dims: usize, body: &[u8], out: &mut [u8])
    requires dims_le_max_dims { dims ≤ max_dims }
    requires body_len { length body.now ≡ ceil dims 8 }
    requires dims_in_bounds { 8 * dims ≤ length out.old }
    ensures { out.new ≡ onto (result_of Float1Bit Float32Sparse dims body.now) out.old }
{
    let mut n = 0;
    let mut i = 0;
    while i < dims {
        let x = element(body, i);
        n = put_entry(true, little_endian::bits32(x), i, dims, n, out);
        i += 1;
    }
}
