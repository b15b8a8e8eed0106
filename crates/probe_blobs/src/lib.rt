// The lines that show a vector: read, strict, conv; and the room that a line is worked on in.
#![tactic(auto)]

ghost use Rattle.std.specs.Prelude.{◌≡◌, ◌+◌, ◌*◌, ◌≤◌, ◌++◌, length, take, replicate};
ghost use Rattle.lines.specs.Parts.{fields_of};
ghost use Rattle.lines.specs.Fields.{exactly, PutsUnlessMalformed};
ghost use Rattle.vector_types.specs.Layout.{max_blob_length};
ghost use Rattle.probe_blobs.specs.Limits.{reply_room, decoded_room, scratch_room, blob_room};
ghost use Rattle.probe_blobs.specs.Rooms.{SameRooms};
ghost use Rattle.probe_blobs.specs.Blobs.{vector_text, read_blob_text, read_reply, kind_of, convert_blob_text, convert_reply};

use buffer::Buffer;
use lines::hex::decode;
use lines::text::{numeral, put_malformed, split_field};
use reply_texts::{put_counted, put_refusal};
use vector_types::{KindError, MAX_BLOB_LENGTH, MAX_DIMS, Mode, VectorType, View};

/// As many bytes as a line may be decoded to.
pub const DECODED: usize = 550000;

/// Room for the elements that a conversion goes through.
pub const SCRATCH: usize = 4 * MAX_DIMS;

/// Room for the longest blob.
pub const BLOB: usize = MAX_BLOB_LENGTH;

/// Room to work on a line, as it is lent; what a line has no use for may be empty. What is in it
/// afterwards is not promised.
#[derive(Drop)]
pub struct LentRooms<'d, 's, 'm> {
    pub decoded: &'d mut [u8],
    pub scratch: &'s mut [u8],
    pub made: &'m mut [u8],
}

/// Room to work on any line. What is in it afterwards is not promised.
#[derive(Drop)]
pub struct WorkRooms {
    pub decoded: [u8; DECODED],
    pub scratch: [u8; SCRATCH],
    pub made: [u8; BLOB],
}

impl WorkRooms {
    pub fn new() -> Self
        ensures decoded { result.decoded ≡ replicate decoded_room 0 }
        ensures scratch { result.scratch ≡ replicate scratch_room 0 }
        ensures made { result.made ≡ replicate blob_room 0 }
    {
        WorkRooms {
            decoded: [0; DECODED],
            scratch: [0; SCRATCH],
            made: [0; BLOB],
        }
    }
}

// Puts a vector: a mark, its kind and dims, its body, the first of these bytes, and its readings.
fn put_vector<const N: usize>(mark: &[u8], view: View, bytes: &[u8], out: &mut Buffer<N>)
    requires mark_len { length mark.now ≡ 2 }
    requires length_in_bounds { view.length ≤ length bytes.now }
    requires length_le_max_blob_length { view.length ≤ max_blob_length }
    requires room { length out.old + reply_room ≤ N }
    ensures puts { out.new ≡ out.old ++ vector_text mark.now view (take view.length bytes.now) }
    ensures size { length out.new ≤ length out.old + reply_room }
{
    let byte = u8::from(view.kind) as u64;
    let dims = view.dims.0 as u64;
    let count = view.readings.0 as u64;
    put_counted(mark, byte, dims, &bytes[..view.length], count, out);
}

// Puts what a blob shows in a mode.
#[tactic(auto, unfolding(crate::specs::Blobs::read_text), using(crate::proofs::BlobTexts::seen))]
fn put_read<const N: usize>(mode: Mode, blob: &[u8], out: &mut Buffer<N>)
    requires { length out.old + reply_room ≤ N }
    ensures puts { out.new ≡ out.old ++ read_blob_text mode blob.now }
    ensures size { length out.new ≤ length out.old + reply_room }
{
    match vector_types::read(mode, blob) {
        Ok(view) => put_vector(b"V\t", view, blob, out),
        Err(refusal) => put_refusal(refusal, out),
    }
}

// Puts the reply to read|H or strict|H, of which this is H.
#[tactic(auto, unfolding(crate::specs::Blobs::read_reply), using(crate::proofs::BlobTexts::hex))]
fn put_read_reply<const N: usize>(
    mode: Mode,
    field: &[u8],
    decoded: &mut [u8],
    out: &mut Buffer<N>,
) -> Option<()>
    requires field_len_bound { length field.now ≤ 2 * length decoded.old }
    requires room { length out.old + reply_room ≤ N }
    ensures puts { PutsUnlessMalformed (read_reply mode field.now) out.old result out.new }
    ensures size { length out.new ≤ length out.old + reply_room }
{
    let blob = decode(field, decoded)?;
    put_read(mode, blob, out);
    Some(())
}

// The reply to read|H or strict|H, which name the mode. H is decoded into `decoded`.
pub fn read_line<const N: usize>(mode: Mode, field: &[u8], decoded: &mut [u8], out: &mut Buffer<N>)
    requires field_len_bound { length field.now ≤ 2 * length decoded.old }
    requires room { length out.old + reply_room ≤ N }
    ensures puts { out.new ≡ out.old ++ read_reply mode field.now }
    ensures size { length out.new ≤ length out.old + reply_room }
{
    if put_read_reply(mode, field, decoded, out).is_none() {
        put_malformed(out);
    }
}

// The kind that a field names: a type byte in one decimal digit.
#[tactic(auto, unfolding(crate::specs::Blobs::kind_of), using(crate::proofs::BlobTexts::digit_below))]
pub fn kind_of(field: &[u8]) -> Result<VectorType, KindError>
    ensures { result ≡ kind_of field.now }
{
    match numeral(1, field) {
        Some(number) => VectorType::try_from(number as u8),
        None => Err(KindError::Unknown),
    }
}

// Converts a blob to a kind, and puts what is made.
fn put_converted<const N: usize>(
    target: VectorType,
    blob: &[u8],
    scratch: &mut [u8],
    made: &mut [u8],
    out: &mut Buffer<N>,
)
    requires scratch_len { length scratch.old ≡ scratch_room }
    requires made_len { length made.old ≡ blob_room }
    requires room { length out.old + reply_room ≤ N }
    ensures puts { out.new ≡ out.old ++ convert_blob_text target blob.now }
    ensures size { length out.new ≤ length out.old + reply_room }
{
    match convert::convert(blob, target, scratch, made) {
        Ok(view) => put_vector(b"C\t", view, made, out),
        Err(refusal) => put_refusal(refusal, out),
    }
}

// Puts the reply to conv|K|H, of which this is K|H.
#[tactic(auto, using(crate::proofs::BlobTexts::conversions))]
fn put_convert_reply<const N: usize>(
    rest: &[u8],
    rooms: &mut LentRooms,
    out: &mut Buffer<N>,
) -> Option<()>
    requires rest_len_bound { length rest.now ≤ 2 * length rooms.old.decoded.now }
    requires scratch_len { length rooms.old.scratch.now ≡ scratch_room }
    requires made_len { length rooms.old.made.now ≡ blob_room }
    requires room { length out.old + reply_room ≤ N }
    ensures puts { PutsUnlessMalformed (exactly 2 convert_reply (fields_of rest.now)) out.old result out.new }
    ensures size { length out.new ≤ length out.old + reply_room }
    ensures same_rooms { SameRooms rooms.old rooms.new }
{
    let (kind, field) = split_field(rest)?;
    let target = kind_of(kind).ok()?;
    let blob = decode(field, rooms.decoded)?;
    put_converted(target, blob, rooms.scratch, rooms.made, out);
    Some(())
}

// The reply to conv|K|H, of which this is K|H.
pub fn convert_line<const N: usize>(rest: &[u8], rooms: &mut LentRooms, out: &mut Buffer<N>)
    requires rest_len_bound { length rest.now ≤ 2 * length rooms.old.decoded.now }
    requires scratch_len { length rooms.old.scratch.now ≡ scratch_room }
    requires made_len { length rooms.old.made.now ≡ blob_room }
    requires room { length out.old + reply_room ≤ N }
    ensures puts { out.new ≡ out.old ++ exactly 2 convert_reply (fields_of rest.now) }
    ensures size { length out.new ≤ length out.old + reply_room }
    ensures same_rooms { SameRooms rooms.old rooms.new }
{
    if put_convert_reply(rest, rooms, out).is_none() {
        put_malformed(out);
    }
}
