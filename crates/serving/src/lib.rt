// The loops of a program over lines: each line of an input gets a numbered reply, whatever the program
// replies to a line.
#![tactic(auto)]

ghost use Rattle.std.specs.Prelude.{◌≡◌, ℕ, List, ◌+◌, ◌≤◌, ◌<◌, ◌^◌, ◌++◌, length, IfOk, OnErr};
ghost use Rattle.lines.specs.Printed.{limited, numbered_reply};
ghost use Rattle.line_stream.specs.Inner.Rooms.{numbered_room, input_room};
ghost use Rattle.line_stream.specs.Inner.Serving.{TextReady, Serves, ServesAll};

use buffer::Buffer;
use byte_slices::find;
use line_stream::ending::Stopped;
use line_stream::{HeldLine, ServedLines, ServedText, next_text};
use lines::text::{put_head, put_malformed};
use std::io::{self, Read, Write};

// What a program replies to a line of at most LIMIT bytes, in at most ROOM bytes. A value has the room
// that a program works in.
pub trait Replies<const N: usize> {
    ghost LIMIT: { ℕ };

    ghost ROOM: { ℕ };

    ghost reply_to: { List ℕ → List ℕ };

    const LIMIT: usize;

    const ROOM: usize;

    // Puts the reply to a line.
    fn put_reply(&mut self, line: &[u8], out: &mut Buffer<N>)
        requires limit { length line.now ≤ LIMIT }
        requires room { length out.old + ROOM ≤ N }
        ensures puts { out.new ≡ out.old ++ reply_to line.now }
        ensures size { length out.new ≤ length out.old + ROOM };

    // X has room, and so has a reply with its number.
    ghost some_room: { 1 ≤ ROOM };

    ghost room_fits: { ROOM + 22 < 2 ^ 64 };
}

// Puts the reply to a line: X to one over the limit.
fn put_limited<const N: usize, R: Replies<N>>(replies: &mut R, line: &[u8], out: &mut Buffer<N>)
    requires { length out.old + R.ROOM ≤ N }
    ensures puts { out.new ≡ out.old ++ limited R.LIMIT R.reply_to line.now }
    ensures size { length out.new ≤ length out.old + R.ROOM }
{
    if R::LIMIT < line.len() {
        put_malformed(out);
        return;
    }
    replies.put_reply(line, out);
}

// Puts the number of a line, a tab, the reply to it and a newline.
#[tactic(auto, unfolding(lines::specs::Printed::numbered_reply))]
fn put_numbered<const N: usize, R: Replies<N>>(
    replies: &mut R,
    number: u64,
    line: &[u8],
    out: &mut Buffer<N>,
)
    requires { length out.old + numbered_room R.ROOM ≤ N }
    ensures { out.new ≡ out.old ++ numbered_reply number (limited R.LIMIT R.reply_to line.now) }
{
    put_head(number, out);
    put_limited(replies, line, out);
    out.push(b'\n');
}

// Serves the lines of a text that starts with the line held, each if there is room for its reply; the
// replies take the place of what was in out.
pub fn serve<const N: usize, R: Replies<N>>(
    replies: &mut R,
    text: &[u8],
    held: HeldLine,
    out: &mut Buffer<N>,
) -> ServedLines
    requires { TextReady text.now held }
    ensures { Serves (limited R.LIMIT R.reply_to) (numbered_room R.ROOM) text.now held.before N out.new result }
{
    out.clear();
    let mut at = 0;
    let mut before = held.before;
    let mut from = held.count;
    loop {
        let Some(n) = find(&text[from..], b'\n') else {
            return ServedLines {
                at,
                before,
                more: false,
            };
        };
        if out.room() < R::ROOM + 22 {
            return ServedLines {
                at,
                before,
                more: true,
            };
        }
        let end = from + n;
        before += 1;
        put_numbered(replies, before, &text[at..end], out);
        at = end + 1;
        from = at;
    }
}

// Serves all lines of a text that starts with the line held, and writes the replies.
pub fn serve_all<const N: usize, R: Replies<N>, W: Write>(
    replies: &mut R,
    text: &[u8],
    held: HeldLine,
    out: &mut Buffer<N>,
    stdout: &mut W,
) -> io::Result<ServedText>
    requires text_ready { TextReady text.now held }
    requires room { numbered_room R.ROOM ≤ N }

    // Where writing fails, some replies may have been written.
    ensures { IfOk result (ServesAll text.now held.before) }
{
    let mut line = held;
    let mut at = 0;
    loop {
        let served = serve(replies, &text[at..], line, out);
        stdout.write_all(out.as_slice())?;
        at += served.at;
        line = HeldLine {
            count: 0,
            before: served.before,
        };
        if !served.more {
            break;
        }
    }
    Ok(ServedText {
        at,
        before: line.before,
    })
}

// Reads an input piece by piece to its end, serves its lines, and writes the replies.
pub fn run<const N: usize, R: Replies<N>, I: Read, W: Write>(
    replies: &mut R,
    stdin: &mut I,
    stdout: &mut W,
    input: &mut [u8],
    out: &mut Buffer<N>,
) -> Result<(), Stopped>
    requires input_len { length input.old ≡ input_room R.LIMIT }
    requires room { numbered_room R.ROOM ≤ N }

    // Where reading or writing fails, the input's room holds anything of its length.
    ensures { OnErr result (length input.new ≡ length input.old) }
{
    let mut at = 0;
    let mut end = 0;
    let mut before = 0;
    // as many bytes of input as the numbers of lines can count
    let mut left = 0x8000_0000_0000_0000;
    loop {
        let text = next_text(stdin, input, at, end, R::LIMIT + 1, left).map_err(Stopped::NotRead)?;
        end = text.end;
        let held = HeldLine {
            count: text.count,
            before,
        };
        let served = serve_all(replies, &input[..end], held, out, stdout).map_err(
            Stopped::NotWritten,
        )?;
        if !text.more {
            return Ok(());
        }
        at = served.at;
        before = served.before;
        left = text.left;
    }
}
