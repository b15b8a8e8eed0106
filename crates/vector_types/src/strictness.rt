// The tests of the strict mode: sparse indices rise, and unused bits are zero.
ghost use Rattle.std.specs.Prelude.{◌≡◌, ◌*◌, ◌-◌, ◌≤◌, ◌<◌, length};
ghost use Rattle.vector_types.specs.Search.{found_index, any_index};
ghost use Rattle.vector_types.specs.Layout.{ceil};
ghost use Rattle.vector_types.specs.Read.{read_of, is_not_above_previous, unused_set};
ghost use Rattle.vector_types.specs.declared.Mode.TheVariants.{Plain, Strict};

use crate::{Refusal, VectorType, View};

// The first of the count entries of a sparse body whose index is not above the one before it, if there is one. Entry
// 0 has none before it.
fn first_not_above_previous(s: &[u8], count: usize) -> Option<usize>
    requires { 8 * count ≤ length s.now }
    ensures { result ≡ found_index (is_not_above_previous s.now count) count }
{
    for entry in 1..count {
        let before = little_endian::u32_at(s, 4 * count + 4 * (entry - 1));
        let index = little_endian::u32_at(s, 4 * count + 4 * entry);
        if index <= before {
            return Some(entry);
        }
    }
    None
}

// Whether a bit past dims is set in the last byte of a 1-bit body.
fn unused_set(s: &[u8], dims: usize) -> bool
    requires { ceil dims 8 ≤ length s.now }
    ensures { result ≡ any_index (unused_set s.now dims) (8 * ceil dims 8 - dims) }
{
    let used = dims % 8;
    if used == 0 {
        return false;
    }
    s[dims / 8] >> used != 0
}

// The view that the plain mode shows, unless a strict test refuses it.
pub(crate) fn check_strict(blob: &[u8], view: View) -> Result<View, Refusal>
    requires { read_of Plain blob.now ≡ Ok view }
    ensures { result ≡ read_of Strict blob.now }
{
    match view.kind {
        VectorType::Float32Sparse => {
            if let Some(entry) = first_not_above_previous(blob, view.length / 8) {
                return Err(Refusal::SparseOrder(entry));
            }
        }
        VectorType::Float1Bit => {
            if unused_set(blob, view.dims.0) {
                return Err(Refusal::UnusedBitSet);
            }
        }
        _ => {}
    }
    Ok(view)
}
