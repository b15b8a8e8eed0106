// Reading a file at a place.
ghost use Rattle.std.specs.Prelude.{◌≡◌, ◌*◌, ◌≤◌, length};
ghost use Rattle.promises.specs.Onto.{onto};
ghost use Rattle.vector_types.specs.Parts.{past};
ghost use Rattle.vecs.specs.Vecs.{vector_at, elements_start, elements_at, byte_floats, vecs_leaving, bvecs_outcome};

use crate::Found;
use vector_types::{Dims, MAX_DIMS, Refusal};

// What stands at a place of a file whose elements have `width` bytes; nothing where the file has ended.
// Nothing is added to a place before the file is known to be longer.
#[tactic(auto, unfolding(crate::specs::Vecs::vector_at, crate::specs::Vecs::vecs_answer_by, crate::specs::Vecs::vecs_refusals))]
fn vector_at(width: usize, file: &[u8], place: usize) -> Result<Option<Found>, Refusal>
    requires { width ≤ 4 }
    ensures { result ≡ vector_at width file.now place }
{
    let size = file.len();
    if size <= place {
        return Ok(None);
    }
    let cut = Refusal::FileEndsInside(place);
    let left = size - place;
    if left < 4 {
        return Err(cut);
    }
    let count = little_endian::u32_at(file, place) as usize;
    if MAX_DIMS < count {
        return Err(Refusal::DimsOverLimit);
    }
    let length = width * count;
    if left - 4 < length {
        return Err(cut);
    }
    let start = place + 4;
    Ok(Some(Found {
        dims: Dims(count),
        start,
        next: start + length,
    }))
}

// What stands at a place of an fvecs file.
pub fn fvecs_at(file: &[u8], place: usize) -> Result<Option<Found>, Refusal>
    ensures { result ≡ vector_at 4 file.now place }
{
    vector_at(4, file, place)
}

// The elements of the vector at a place of an fvecs file, a Float32Dense body: part of the caller's file,
// nothing copied. Nothing, at the start of the file, where no vector is shown.
#[tactic(auto, unfolding(crate::specs::Vecs::elements_at), using(crate::proofs::AtPlace::places))]
pub fn fvecs_part(file: &[u8], place: usize) -> &[u8]
    ensures result_value { result.now ≡ elements_at 4 file.now place }
    ensures ref_ptr_value { result.ref_ptr ≡ past file.entry.ref_ptr (elements_start (vector_at 4 file.now place)) }
{
    match vector_at(4, file, place) {
        Ok(Some(found)) => &file[found.start..found.next],
        _ => &file[..0],
    }
}

// Puts each byte of s as the f32 of its number at the start of out.
fn put_floats(s: &[u8], out: &mut [u8])
    requires { 4 * length s.now ≤ length out.old }
    ensures { out.new ≡ onto (byte_floats s.now) out.old }
{
    for (i, byte) in s.iter().enumerate() {
        little_endian::put_f32(out, 4 * i, f32::from(*byte));
    }
}

// What stands at a place of a bvecs file; the elements of a vector are put at the start of out, each as
// an f32. The end and a refusal change nothing.
#[tactic(auto, unfolding(crate::specs::Vecs::bvecs_outcome), using(crate::proofs::AtPlace::places))]
pub fn bvecs_at(file: &[u8], place: usize, out: &mut [u8]) -> Result<Option<Found>, Refusal>
    ensures { vecs_leaving result out.new ≡ bvecs_outcome file.now place out.old }
{
    let Some(found) = vector_at(1, file, place)? else {
        return Ok(None);
    };
    let need = 4 * found.dims.0;
    if out.len() < need {
        return Err(Refusal::OutputTooShort(need));
    }
    put_floats(&file[found.start..found.next], out);
    Ok(Some(found))
}
