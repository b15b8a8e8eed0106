// Converting a blob to another kind.
ghost use Rattle.std.specs.Prelude.{◌≡◌, [], ◌∷◌};
ghost use Rattle.convert.specs.Convert.{convert_leaving};
ghost use Rattle.answer_fields.specs.Fields.{export_outcome};
ghost use Rattle.answer_fields.specs.Exported.{convert_export};
ghost use Rattle.fulandewu.specs.Kinds.{converted_by};

use answer_fields::{Answer, report_converted};
use vector_types::{Refusal, VectorType, View};

// Converts a blob to the kind that a byte names.
#[tactic(auto, unfolding(crate::specs::Kinds::converted_by))]
fn convert_as(blob: &[u8], kind: u8, scratch: &mut [u8], out: &mut [u8]) -> Result<View, Refusal>
    ensures { convert_leaving result scratch.new out.new ≡ converted_by blob.now kind scratch.old out.old }
{
    let target = VectorType::try_from(kind)?;
    convert::convert(blob, target, scratch, out)
}

// Puts the body of the kind that a type byte names at the start of out, and reports its dims and length;
// where scratch (17) or out (15) is too short, how long it would have to be.
pub fn fulandewu_convert(
    blob: &[u8],
    kind: u8,
    scratch: &mut [u8],
    out: &mut [u8],
    answer: &mut Answer,
) -> u32
    ensures { export_outcome result answer.new (scratch.new ∷ out.new ∷ [])
        ≡ convert_export (converted_by blob.now kind scratch.old out.old) answer.old }
{
    let found = convert_as(blob, kind, scratch, out);
    report_converted(found, answer)
}
