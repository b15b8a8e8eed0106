// What fvecs prints for a file: for each vector its number, a tab, what is shown of it and a newline.
#![tactic(auto)]

ghost use Rattle.std.specs.Prelude.{◌≡◌, ◌+◌, ◌-◌, ◌*◌, ◌≤◌, ◌<◌, ◌^◌, ◌++◌, length};
ghost use Rattle.lines.specs.Printed.{numbered_reply};
ghost use Rattle.vecs.specs.Vecs.{vector_at};
ghost use Rattle.vecs_lines.specs.Inner.Rooms.{longest_vector, vector_line_room, refusal_line_room};
ghost use Rattle.vecs_lines.specs.Inner.Cut.{first_size, whole_reply, Lists, answer_at, told_refusal, told_line};

use buffer::Buffer;
use lines::hex::put_bytes;
use lines::text::put_head;
use reply_texts::put_refusal;
use vector_types::{MAX_DIMS, Refusal};

// The longest vector of an fvecs file: a count, and four bytes an element.
pub const LONGEST_VECTOR: usize = 4 + 4 * MAX_DIMS;

// Room for the numbered line of any vector: twenty digits, a tab, what is shown, and a newline.
pub const VECTOR_LINE: usize = 23 + 8 * MAX_DIMS + 22;

// The vectors of a text that are listed: those up to `at`, where the next one starts, which `before`
// vectors come before. `more` says that whole vectors are left, for whose lines there was no room.
#[derive(Clone, Copy)]
pub struct ListedVectors {
    pub at: usize,
    pub before: u64,
    pub more: bool,
}

// How many bytes the vector has that starts a text, if a whole one does.
fn first_size(text: &[u8]) -> Option<usize>
    ensures { result ≡ first_size text.now }
{
    match vecs::fvecs_at(text, 0) {
        Ok(Some(found)) => Some(found.next),
        _ => None,
    }
}

// Puts V, the dims and the elements of a whole vector, separated by tabs.
fn put_whole<const N: usize>(vector: &[u8], out: &mut Buffer<N>)
    requires counted { 4 ≤ length vector.now }
    requires room { length out.old + 15 + 2 * length vector.now ≤ N }
    ensures puts { out.new ≡ out.old ++ whole_reply vector.now }
    ensures size { length out.new ≤ length out.old + 15 + 2 * length vector.now }
{
    out.extend_from_slice(b"V\t");
    put_head(little_endian::u32_at(vector, 0) as u64, out);
    put_bytes(&vector[4..], out);
}

// Puts the number of a vector, a tab, what is shown of it and a newline.
#[tactic(auto, unfolding(lines::specs::Printed::numbered_reply))]
fn put_line<const N: usize>(number: u64, vector: &[u8], out: &mut Buffer<N>)
    requires counted { 4 ≤ length vector.now }
    requires longest { length vector.now ≤ longest_vector }
    requires room { length out.old + vector_line_room ≤ N }
    ensures { out.new ≡ out.old ++ numbered_reply number (whole_reply vector.now) }
{
    put_head(number, out);
    put_whole(vector, out);
    out.push(b'\n');
}

// Lists the vectors that stand whole at the start of a text, each if there is room for its line.
#[tactic(auto, using(crate::proofs::Listing::turns))]
pub fn list<const N: usize>(text: &[u8], before: u64, out: &mut Buffer<N>) -> ListedVectors
    requires { before + length text.now < 2 ^ 64 }
    ensures { Lists (N - length out.old) text.now before out.old out.new result }
{
    let mut rest = text;
    let mut number = before;
    while let Some(size) = first_size(rest)
        && VECTOR_LINE <= out.room()
    {
        let (vector, after) = rest.split_at(size);
        number += 1;
        put_line(number, vector, out);
        rest = after;
    }
    ListedVectors {
        at: text.len() - rest.len(),
        before: number,
        more: first_size(rest).is_some(),
    }
}

// The refusal that is told of what starts a text, which stands at a place of the file. That the file
// ends inside a vector is told only when nothing more comes.
fn told_refusal(text: &[u8], last: bool, place: usize) -> Option<Refusal>
    ensures { result ≡ told_refusal last (answer_at place (vector_at 4 text.now 0)) }
{
    match vecs::fvecs_at(text, 0) {
        Ok(_) => None,
        Err(Refusal::FileEndsInside(_)) => last.then_some(Refusal::FileEndsInside(place)),
        Err(refusal) => Some(refusal),
    }
}

// Puts the line of the refusal of what starts a text that stands at a place of the file, if one is told.
#[tactic(auto, unfolding(lines::specs::Printed::numbered_reply))]
pub fn put_refused<const N: usize>(
    text: &[u8],
    last: bool,
    place: usize,
    number: u64,
    out: &mut Buffer<N>,
)
    requires { length out.old + refusal_line_room ≤ N }
    ensures { out.new ≡ out.old ++ told_line last number (answer_at place (vector_at 4 text.now 0)) }
{
    if let Some(refusal) = told_refusal(text, last, place) {
        put_head(number, out);
        put_refusal(refusal, out);
        out.push(b'\n');
    }
}
