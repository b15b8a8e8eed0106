// Reporting a refusal.
ghost use Rattle.std.specs.Prelude.{◌≡◌, []};
ghost use Rattle.vector_types.specs.Answers.{number_of};
ghost use Rattle.answer_fields.specs.Fields.{export_outcome, leaves};
ghost use Rattle.answer_fields.specs.Exported.{refusal_fields};

use crate::fields::{Answer, ENTRY, NEEDED, PLACE};
use vector_types::{Detail, Refusal};

// The number of a refusal; the field of its detail is written.
pub(crate) fn report_refusal(refusal: Refusal, answer: &mut Answer) -> u32
    ensures { export_outcome result answer.new [] ≡ leaves (number_of refusal) (refusal_fields refusal) answer.old [] }
{
    match refusal.detail() {
        Detail::Nothing => {}
        Detail::Needs(need) => answer[NEEDED] = need as u64,
        Detail::Starts(place) => answer[PLACE] = place as u64,
        Detail::Entry(entry) => answer[ENTRY] = entry as u64,
    }
    refusal.number() as u32
}
