// A blob beside what it shows, so that whoever has both need not say again that they belong together.
ghost use Rattle.std.specs.Prelude.{◌≡◌, true, false, ◌≤◌, length, Ok, IfOk};
ghost use Rattle.std.specs.Result.{result_map_both};
ghost use Rattle.vector_types.specs.Layout.{max_dims, body_fits, has_index_outside};
ghost use Rattle.vector_types.specs.Read.{read_of};
ghost use Rattle.vector_types.specs.Parts.{body_of};
ghost use Rattle.vector_types.specs.declared.Mode.TheVariants.{Plain};

use crate::reading::read;
use crate::{Mode, Refusal, View};

// A blob that the plain mode accepts.
#[derive(Clone, Copy)]
pub struct Vector<'a> {
    pub blob: &'a [u8],
    pub view: View,
    ghost is_view: { read_of Plain blob.now ≡ Ok view },
}

impl<'a> Vector<'a> {
    // The vector that a blob shows in a mode, or the first refusal in the order of the rules.
    pub fn from_slice(mode: Mode, blob: &'a [u8]) -> Result<Self, Refusal>
        ensures read { result_map_both (λ vector. vector.view) (λ refusal. refusal) result ≡ read_of mode blob.now }
        ensures same { IfOk result (λ vector. vector.blob ≡ blob.entry) }
    {
        let view = read(mode, blob)?;
        Ok(Vector { blob, view })
    }

    // The body, a part of the blob.
    pub fn body(self) -> &'a [u8]
        ensures result_value { result.now ≡ body_of self.entry.blob.now }
        ensures ref_ptr_value { result.ref_ptr ≡ self.entry.blob.ref_ptr }
        ensures few { self.entry.view.dims.0 ≤ max_dims }
        ensures fit { body_fits self.entry.view.kind self.entry.view.dims.0 (length result.now) ≡ true }
        ensures inside { has_index_outside self.entry.view.kind self.entry.view.dims.0 result.now ≡ false }
    {
        &self.blob[..self.view.length]
    }
}
