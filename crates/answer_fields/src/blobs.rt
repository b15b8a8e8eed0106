// Answers about one blob: what was read, written and converted.
ghost use Rattle.std.specs.Prelude.{◌≡◌, []};
ghost use Rattle.vector_types.specs.Answers.{answer_number};
ghost use Rattle.answer_fields.specs.Fields.{export_outcome, leaves};
ghost use Rattle.answer_fields.specs.Exported.{read_export, write_fields, convert_fields};

use crate::fields::{Answer, DIMS, KIND, LENGTH, READINGS};
use crate::refusing::report_refusal;
use vector_types::{Refusal, View};

// The number of a reader's answer; a view's type byte, dims, body length and readings are written.
pub fn report_view(found: Result<View, Refusal>, answer: &mut Answer) -> u32
    ensures { export_outcome result answer.new [] ≡ read_export found answer.old }
{
    match found {
        Ok(view) => {
            answer[KIND] = u64::from(u8::from(view.kind));
            answer[DIMS] = view.dims.0 as u64;
            answer[LENGTH] = view.length as u64;
            answer[READINGS] = view.readings.0 as u64;
            0
        }
        Err(refusal) => report_refusal(refusal, answer),
    }
}

// The number of a writer's answer; the length of the blob is written.
pub fn report_written(found: Result<usize, Refusal>, answer: &mut Answer) -> u32
    ensures { export_outcome result answer.new [] ≡ leaves (answer_number found) (write_fields found) answer.old [] }
{
    match found {
        Ok(length) => {
            answer[LENGTH] = length as u64;
            0
        }
        Err(refusal) => report_refusal(refusal, answer),
    }
}

// The number of a conversion's answer; the dims and the length of the new body are written, and the
// readings of the new vector.
pub fn report_converted(found: Result<View, Refusal>, answer: &mut Answer) -> u32
    ensures { export_outcome result answer.new [] ≡ leaves (answer_number found) (convert_fields found) answer.old [] }
{
    match found {
        Ok(made) => {
            answer[DIMS] = made.dims.0 as u64;
            answer[LENGTH] = made.length as u64;
            answer[READINGS] = made.readings.0 as u64;
            0
        }
        Err(refusal) => report_refusal(refusal, answer),
    }
}
