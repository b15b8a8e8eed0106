// The vectors of an fvecs file, a line for each: reads standard input piece by piece, and writes the lines.
#![tactic(auto)]

ghost use Rattle.std.specs.Prelude.{◌≡◌, ◌+◌, ◌≤◌, ◌<◌, ◌^◌, length, IfOk, OnErr, IfSome};
ghost use Rattle.vecs_lines.specs.Inner.Rooms.{longest_vector, vector_line_room};
ghost use Rattle.fvecs.specs.Inner.Stream.{ListsAll, ListsOn};

use buffer::Buffer;
use line_stream::ending::{Stopped, exit_code};
use line_stream::next_piece;
use std::io::{Read, Write};
use std::process::ExitCode;
use vecs_lines::{LONGEST_VECTOR, VECTOR_LINE, list, put_refused};

// Room for the part of a vector that is kept, and for a piece of the input behind it.
const INPUT: usize = LONGEST_VECTOR + 65536;

// Room for lines that are not written yet.
const OUTPUT: usize = VECTOR_LINE + 65536;

// How far a text is listed, all lines of which were written: up to `at`, before which `before` vectors
// stand.
#[derive(Clone, Copy)]
struct ListedText {
    at: usize,
    before: u64,
}

// Lists all vectors of a text, and writes the lines.
fn list_all<W: Write, const N: usize>(
    text: &[u8],
    before: u64,
    out: &mut Buffer<N>,
    stdout: &mut W,
) -> Result<ListedText, Stopped>
    requires text_bound { before + length text.now < 2 ^ 64 }
    requires room { vector_line_room ≤ N }
    ensures lists_all { IfOk result (ListsAll text.now before) }
    ensures at_in_bounds { IfOk result (λ r. r.at ≤ length text.now) }
{
    let mut rest = text;
    let mut number = before;
    loop {
        out.clear();
        let listed = list(rest, number, out);
        stdout
            .write_all(out.as_slice())
            .map_err(Stopped::NotWritten)?;
        let (_, after) = rest.split_at(listed.at);
        rest = after;
        number = listed.before;
        if !listed.more {
            return Ok(ListedText {
                at: text.len() - rest.len(),
                before: number,
            });
        }
    }
}

// Lists a text that starts at a place of the file, and writes the lines: all vectors, and the refusal of
// what follows them, if one is told. After a refusal the listing does not go on. `last` says that nothing
// follows the text.
fn list_text<W: Write, const N: usize>(
    text: &[u8],
    place: usize,
    before: u64,
    last: bool,
    out: &mut Buffer<N>,
    stdout: &mut W,
) -> Result<Option<ListedText>, Stopped>
    requires text_bound { place + length text.now < 2 ^ 64 }
    requires text_bound_2 { before + length text.now + 1 < 2 ^ 64 }
    requires room { vector_line_room ≤ N }
    ensures lists_on { IfOk result (λ on. IfSome on (ListsOn last text.now place before)) }
    ensures at_in_bounds { IfOk result (λ on. IfSome on (λ r. r.at ≤ length text.now)) }
{
    let listed = list_all(text, before, out, stdout)?;
    out.clear();
    put_refused(
        &text[listed.at..],
        last,
        place + listed.at,
        listed.before + 1,
        out,
    );
    if out.is_empty() {
        return Ok(Some(listed));
    }
    stdout
        .write_all(out.as_slice())
        .map_err(Stopped::NotWritten)?;
    Ok(None)
}

// Reads standard input piece by piece to its end or to a refusal, and lists its vectors.
fn run<R: Read, W: Write, const N: usize>(
    stdin: &mut R,
    stdout: &mut W,
    input: &mut [u8],
    out: &mut Buffer<N>,
) -> Result<(), Stopped>
    requires input_len { length input.old ≡ longest_vector + 65536 }
    requires room { vector_line_room ≤ N }

    // Where reading or writing fails, the input's room holds anything of its length.
    ensures { OnErr result (length input.new ≡ length input.old) }
{
    let mut at = 0;
    let mut end = 0;
    let mut place = 0;
    let mut before = 0;
    // as many bytes of input as places can count
    let mut left = 0x8000_0000_0000_0000;
    loop {
        let piece = next_piece(stdin, input, at, end, LONGEST_VECTOR, left).map_err(
            Stopped::NotRead,
        )?;
        end = piece.end;
        let last = !piece.more;
        let Some(listed) = list_text(&input[..end], place, before, last, out, stdout)? else {
            return Ok(());
        };
        if last {
            return Ok(());
        }
        at = listed.at;
        place += at;
        before = listed.before;
        left = piece.left;
    }
}

fn main(rt: HostRuntime) -> ExitCode {
    let ran = run(
        &mut rt.stdin(),
        &mut rt.stdout(),
        &mut [0; INPUT],
        &mut Buffer::<OUTPUT>::new(),
    );
    exit_code(&rt, "fvecs", ran)
}
