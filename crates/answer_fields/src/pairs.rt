// Answers about two blobs and about three: a distance, and the nearer of two.
ghost use Rattle.std.specs.Prelude.{◌≡◌, []};
ghost use Rattle.answer_fields.specs.Fields.{export_outcome};
ghost use Rattle.answer_fields.specs.Exported.{which_code, distance_export, candidate_code, among_code, nearer_export};

use crate::fields::{Answer, DISTANCE, NEARER, OTHER_READINGS, READINGS, WHICH};
use crate::refusing::report_refusal;
use distance::{Measured, Refused, Which};
use little_endian::bits64;
use nearer::{Among, Candidate, Near};

// The codes are the C interface's and the types are other crates', so no From can stand here.
// The blob that a refusal is about: 1 the first, 2 the second, 0 neither.
fn which_code(blob: Option<Which>) -> u64
    ensures { result ≡ which_code blob }
{
    match blob {
        None => 0,
        Some(Which::First) => 1,
        Some(Which::Second) => 2,
    }
}

// The number of an answer; the distance and the readings of both blobs, or the blob that a refusal is
// about, are written.
pub fn report_distance(found: Result<Measured, Refused<Which>>, answer: &mut Answer) -> u32
    ensures { export_outcome result answer.new [] ≡ distance_export found answer.old }
{
    match found {
        Ok(measured) => {
            answer[DISTANCE] = bits64(measured.distance);
            answer[READINGS] = measured.counts.first.0 as u64;
            answer[OTHER_READINGS] = measured.counts.second.0 as u64;
            0
        }
        Err(Refused { refusal, blob }) => {
            answer[WHICH] = which_code(blob);
            report_refusal(refusal, answer)
        }
    }
}

// The nearer candidate: 1 the first, 2 the second.
fn candidate_code(candidate: Candidate) -> u64
    ensures { result ≡ candidate_code candidate }
{
    match candidate {
        Candidate::First => 1,
        Candidate::Second => 2,
    }
}

// The blob that a refusal is about: 1 the first, 2 the second, 3 the probe, 0 none of the three.
fn among_code(blob: Option<Among>) -> u64
    ensures { result ≡ among_code blob }
{
    match blob {
        None => 0,
        Some(Among::First) => 1,
        Some(Among::Second) => 2,
        Some(Among::Probe) => 3,
    }
}

// The number of an answer; the nearer candidate, its distance and its readings, or the blob that a
// refusal is about, are written.
pub fn report_nearer(found: Result<Near, Refused<Among>>, answer: &mut Answer) -> u32
    ensures { export_outcome result answer.new [] ≡ nearer_export found answer.old }
{
    match found {
        Ok(near) => {
            answer[DISTANCE] = bits64(near.distance);
            answer[NEARER] = candidate_code(near.candidate);
            answer[READINGS] = near.readings.0 as u64;
            0
        }
        Err(Refused { refusal, blob }) => {
            answer[WHICH] = among_code(blob);
            report_refusal(refusal, answer)
        }
    }
}
