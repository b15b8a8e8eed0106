// A view of a sparse blob, that holds a reference to its body, and takes it apart.
#![tactic(auto)]

ghost use Rattle.std.specs.Prelude.{◌≡◌};
ghost use Rattle.vector_types.specs.Read.{read_of};
ghost use Rattle.vector_types.specs.declared.Mode.TheVariants.{Plain};
ghost use Rattle.vector_types.specs.Parts.{shown_half, values_of, indices_of, past};
ghost use Rattle.sparse_view.specs.Halves.{SparseBody, FirstHalf, SecondHalf};

// The body of a sparse blob: its values, then as many indices.
#[derive(Clone, Copy)]
pub struct SparseView<'a> {
    pub body: &'a [u8],
}

impl<'a> SparseView<'a> {
    // The view of a blob; of nothing where it is refused or of another kind.
    #[tactic(auto, using(crate::proofs::Bodies::bodies))]
    pub fn of(blob: &'a [u8]) -> Self
        ensures { SparseBody blob.entry result.body }
    {
        let size = vector_types::values(blob).len();
        SparseView {
            body: &blob[..2 * size],
        }
    }

    pub fn values(self) -> &'a [u8]
        ensures { FirstHalf self.entry.body result }
    {
        let size = self.body.len() / 2;
        &self.body[..size]
    }

    pub fn indices(self) -> &'a [u8]
        ensures { SecondHalf self.entry.body result }
    {
        let size = self.body.len() / 2;
        &self.body[size..]
    }
}

// The values of a blob, through its view: whoever calls this holds no view.
#[tactic(auto, using(crate::proofs::Bodies::bodies))]
pub fn values_of(blob: &[u8]) -> &[u8]
    ensures { (result.now ≡ values_of blob.now) × (result.ref_ptr ≡ blob.entry.ref_ptr) }
{
    SparseView::of(blob).values()
}

// Its indices, right after the values.
#[tactic(auto, using(crate::proofs::Bodies::bodies))]
pub fn indices_of(blob: &[u8]) -> &[u8]
    ensures { (result.now ≡ indices_of blob.now) × (result.ref_ptr ≡ past blob.entry.ref_ptr (shown_half (read_of Plain blob.now))) }
{
    SparseView::of(blob).indices()
}
