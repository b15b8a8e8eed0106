// Conversions between the five kinds: all twenty-five pairs.
#![tactic(auto)]

mod dispatch;

ghost use Rattle.std.specs.Prelude.{◌≡◌, length};
ghost use Rattle.convert_parts.specs.Inner.Fitting.{Fitting};
ghost use Rattle.convert.specs.Convert.{body_conversion, convert_leaving, outcome_of, convert_outcome};

use dispatch::{put_result, result_length, scratch_length};
use vector_types::{Dims, Mode, Refusal, Vector, VectorType, View};

// Converts a body of a kind and dims.
#[tactic(auto, unfolding(crate::specs::Convert::body_conversion), using(crate::proofs::Shown::lengths))]
fn convert_body(
    kind: VectorType,
    dims: usize,
    body: &[u8],
    target: VectorType,
    scratch: &mut [u8],
    out: &mut [u8],
) -> Result<View, Refusal>
    requires { Fitting kind dims body.now }
    ensures { convert_leaving result scratch.new out.new
        ≡ outcome_of (body_conversion kind target dims body.now (length scratch.old) (length out.old)) scratch.old out.old }
{
    let whole = scratch_length(kind, target, dims);
    if scratch.len() < whole {
        return Err(Refusal::ScratchTooShort(whole));
    }
    let need = result_length(kind, target, dims, body);
    if out.len() < need {
        return Err(Refusal::OutputTooShort(need));
    }
    put_result(kind, target, dims, body, need, scratch, out);
    Ok(View::of(target, Dims(dims), need))
}

// Converts a blob to a kind: puts the new body at the start of out. Where a sparse blob becomes 1-bit
// or Float8, its dense body is left at the start of scratch. A refusal changes nothing.
#[tactic(auto, unfolding(crate::specs::Convert::convert_outcome, crate::specs::Convert::conversion_of))]
pub fn convert(
    blob: &[u8],
    target: VectorType,
    scratch: &mut [u8],
    out: &mut [u8],
) -> Result<View, Refusal>
    ensures { convert_leaving result scratch.new out.new ≡ convert_outcome blob.now target scratch.old out.old }
{
    let vector = Vector::from_slice(Mode::Plain, blob)?;
    let View { kind, dims, .. } = vector.view;
    convert_body(kind, dims.0, vector.body(), target, scratch, out)
}
