// Files of vectors: what stands at a place, and appending to one.
ghost use Rattle.std.specs.Prelude.{◌≡◌, [], ◌∷◌};
ghost use Rattle.vecs.specs.Vecs.{vector_at, bvecs_outcome};
ghost use Rattle.vecs.specs.Append.{append_outcome};
ghost use Rattle.answer_fields.specs.Fields.{export_outcome};
ghost use Rattle.answer_fields.specs.Exported.{vecs_export, bvecs_export, append_export};

use answer_fields::{Answer, report_fill, report_vector};

// What stands at a place of an fvecs file: a vector, whose elements are the bytes of the file from
// `start` up to `next`, or the end.
pub fn fulandewu_fvecs_read(file: &[u8], place: usize, answer: &mut Answer) -> u32
    ensures { export_outcome result answer.new [] ≡ vecs_export (vector_at 4 file.now place) answer.old }
{
    let found = vecs::fvecs_at(file, place);
    report_vector(found, answer)
}

// What stands at a place of a bvecs file; the elements of a vector are put at the start of out, each as
// an f32; where out is too short, how long it would have to be.
pub fn fulandewu_bvecs_read(file: &[u8], place: usize, out: &mut [u8], answer: &mut Answer) -> u32
    ensures { export_outcome result answer.new (out.new ∷ []) ≡ bvecs_export (bvecs_outcome file.now place out.old) answer.old }
{
    let found = vecs::bvecs_at(file, place, out);
    report_vector(found, answer)
}

// Puts a Float32Dense blob as a vector from `fill` on, and reports the new fill; where out is too short,
// how many bytes are needed after the fill.
pub fn fulandewu_fvecs_append(blob: &[u8], out: &mut [u8], fill: usize, answer: &mut Answer) -> u32
    ensures { export_outcome result answer.new (out.new ∷ []) ≡ append_export (append_outcome blob.now out.old fill) answer.old }
{
    let found = vecs::fvecs_append(blob, out, fill);
    report_fill(found, answer)
}
