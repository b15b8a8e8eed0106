// Answers about files of vectors: what stands at a place, and an append.
ghost use Rattle.std.specs.Prelude.{◌≡◌, []};
ghost use Rattle.vector_types.specs.Answers.{answer_number};
ghost use Rattle.answer_fields.specs.Fields.{export_outcome, leaves};
ghost use Rattle.answer_fields.specs.Exported.{vecs_export, append_fields};

use crate::fields::{Answer, DIMS, FILL, FOUND, NEXT, START};
use crate::refusing::report_refusal;
use vecs::Found;
use vector_types::Refusal;

// The number of an answer; whether there is a vector is written, and of a vector its dims, where its
// elements start, and the next place.
pub fn report_vector(found: Result<Option<Found>, Refusal>, answer: &mut Answer) -> u32
    ensures { export_outcome result answer.new [] ≡ vecs_export found answer.old }
{
    match found {
        Ok(Some(vector)) => {
            answer[FOUND] = 1;
            answer[DIMS] = vector.dims.0 as u64;
            answer[START] = vector.start as u64;
            answer[NEXT] = vector.next as u64;
            0
        }
        Ok(None) => {
            answer[FOUND] = 0;
            0
        }
        Err(refusal) => report_refusal(refusal, answer),
    }
}

// The number of an answer about an append; the new fill is written.
pub fn report_fill(found: Result<usize, Refusal>, answer: &mut Answer) -> u32
    ensures { export_outcome result answer.new [] ≡ leaves (answer_number found) (append_fields found) answer.old [] }
{
    match found {
        Ok(fill) => {
            answer[FILL] = fill as u64;
            0
        }
        Err(refusal) => report_refusal(refusal, answer),
    }
}
