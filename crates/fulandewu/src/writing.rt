// Writing a blob.
ghost use Rattle.std.specs.Prelude.{◌≡◌, [], ◌∷◌};
ghost use Rattle.blob_writer.specs.Write.{write_leaving};
ghost use Rattle.answer_fields.specs.Fields.{export_outcome};
ghost use Rattle.answer_fields.specs.Exported.{write_export};
ghost use Rattle.fulandewu.specs.Kinds.{written_by};

use answer_fields::{Answer, report_written};
use vector_types::{Dims, Refusal, VectorType};

// Writes a blob of the kind that a byte names.
#[tactic(auto, unfolding(crate::specs::Kinds::written_by))]
fn write_as(kind: u8, dims: usize, body: &[u8], out: &mut [u8]) -> Result<usize, Refusal>
    ensures { write_leaving result out.new ≡ written_by kind dims body.now out.old }
{
    let kind = VectorType::try_from(kind)?;
    blob_writer::write(kind, Dims(dims), body, out)
}

// Puts the blob of a type byte, dims and a body at the start of out, and reports its length; where out
// is too short, how long it would have to be.
pub fn fulandewu_write(
    kind: u8,
    dims: usize,
    body: &[u8],
    out: &mut [u8],
    answer: &mut Answer,
) -> u32
    ensures { export_outcome result answer.new (out.new ∷ []) ≡ write_export (written_by kind dims body.now out.old) answer.old }
{
    let found = write_as(kind, dims, body, out);
    report_written(found, answer)
}
