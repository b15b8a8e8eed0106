// The lines about a file of vectors: fvecs, bvecs.
#![tactic(auto)]

ghost use Rattle.std.specs.Prelude.{◌≡◌, ◌+◌, ◌*◌, ◌≤◌, ◌++◌, length};
ghost use Rattle.lines.specs.Parts.{fields_of};
ghost use Rattle.lines.specs.Fields.{exactly, PutsUnlessMalformed};
ghost use Rattle.vector_types.specs.Layout.{max_dims};
ghost use Rattle.probe_blobs.specs.Limits.{reply_room, scratch_room};
ghost use Rattle.probe_blobs.specs.Rooms.{SameRooms};
ghost use Rattle.probe_vecs.specs.Files.{vecs_text, file_text, file_reply};
ghost use Rattle.probe_vecs.specs.Inner.Floats.{floats_length};
ghost use Rattle.probe_vecs.specs.declared.FileKind.TheVariants.{Fvecs, Bvecs};

use buffer::Buffer;
use lines::hex::decode;
use lines::text::{numeral, put_malformed, split_field};
use probe_blobs::LentRooms;
use reply_texts::{put_refusal, put_shown};
use vecs::Found;
use vector_types::Refusal;

// Which of the two formats a file has.
#[derive(Clone, Copy)]
pub enum FileKind {
    Fvecs,
    Bvecs,
}

// Puts what stands at a place of a file: a vector, of which these are the elements, the end, or a refusal.
#[tactic(auto, unfolding(crate::specs::Files::vecs_text))]
fn put_answer<const N: usize>(
    answer: Result<Option<Found>, Refusal>,
    body: &[u8],
    out: &mut Buffer<N>,
)
    requires body_len_bound { length body.now ≤ 4 * max_dims }
    requires room { length out.old + reply_room ≤ N }
    ensures puts { out.new ≡ out.old ++ vecs_text answer body.now }
    ensures size { length out.new ≤ length out.old + reply_room }
{
    match answer {
        Ok(Some(found)) => put_shown(b"I\t", found.next as u64, found.dims.0 as u64, body, out),
        Ok(None) => out.push(b'E'),
        Err(refusal) => put_refusal(refusal, out),
    }
}

// Puts what stands at a place of an fvecs file.
#[tactic(auto, unfolding(crate::specs::Files::file_text), using(crate::proofs::FileTexts::elements_few))]
fn put_fvecs<const N: usize>(place: usize, file: &[u8], out: &mut Buffer<N>)
    requires { length out.old + reply_room ≤ N }
    ensures puts { out.new ≡ out.old ++ file_text Fvecs place file.now }
    ensures size { length out.new ≤ length out.old + reply_room }
{
    let answer = vecs::fvecs_at(file, place);
    put_answer(answer, vecs::fvecs_part(file, place), out);
}

// How many bytes the elements of a bvecs file have as f32; none where there is no vector.
fn floats_length(answer: Result<Option<Found>, Refusal>) -> usize
    requires { floats_length answer ≤ 4 * max_dims }
    ensures value { result ≡ floats_length answer }
    ensures upper_bound { result ≤ 4 * max_dims }
{
    match answer {
        Ok(Some(found)) => 4 * found.dims.0,
        _ => 0,
    }
}

// Puts what stands at a place of a bvecs file, whose elements are put as f32 into `scratch`.
fn put_bvecs<const N: usize>(place: usize, file: &[u8], scratch: &mut [u8], out: &mut Buffer<N>)
    requires scratch_len { length scratch.old ≡ scratch_room }
    requires room { length out.old + reply_room ≤ N }
    ensures puts { out.new ≡ out.old ++ file_text Bvecs place file.now }
    ensures size { length out.new ≤ length out.old + reply_room }
{
    let answer = vecs::bvecs_at(file, place, scratch);
    let floats = &scratch[..floats_length(answer)];
    put_answer(answer, floats, out);
}

// Puts the reply to fvecs|N|H or bvecs|N|H, of which this is N|H.
#[tactic(auto, using(crate::proofs::FileTexts::fields))]
fn put_file_reply<const N: usize>(
    kind: FileKind,
    rest: &[u8],
    rooms: &mut LentRooms,
    out: &mut Buffer<N>,
) -> Option<()>
    requires rest_len_bound { length rest.now ≤ 2 * length rooms.old.decoded.now }
    requires scratch_len { length rooms.old.scratch.now ≡ scratch_room }
    requires room { length out.old + reply_room ≤ N }
    ensures puts { PutsUnlessMalformed (exactly 2 (file_reply kind) (fields_of rest.now)) out.old result out.new }
    ensures size { length out.new ≤ length out.old + reply_room }
    ensures same_rooms { SameRooms rooms.old rooms.new }
{
    let (number, field) = split_field(rest)?;
    let place = numeral(10, number)? as usize;
    let file = decode(field, rooms.decoded)?;
    match kind {
        FileKind::Fvecs => put_fvecs(place, file, out),
        FileKind::Bvecs => put_bvecs(place, file, rooms.scratch, out),
    }
    Some(())
}

// The reply to fvecs|N|H or bvecs|N|H, of which this is N|H.
pub fn file_line<const N: usize>(
    kind: FileKind,
    rest: &[u8],
    rooms: &mut LentRooms,
    out: &mut Buffer<N>,
)
    requires rest_len_bound { length rest.now ≤ 2 * length rooms.old.decoded.now }
    requires scratch_len { length rooms.old.scratch.now ≡ scratch_room }
    requires room { length out.old + reply_room ≤ N }
    ensures puts { out.new ≡ out.old ++ exactly 2 (file_reply kind) (fields_of rest.now) }
    ensures size { length out.new ≤ length out.old + reply_room }
    ensures same_rooms { SameRooms rooms.old rooms.new }
{
    if put_file_reply(kind, rest, rooms, out).is_none() {
        put_malformed(out);
    }
}
