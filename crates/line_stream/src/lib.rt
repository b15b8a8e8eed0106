// An input that comes in pieces. What is left of it stands at the start of a buffer, and the next piece
// is read in behind it. Of an input that is cut into lines that is the line that no newline has ended yet.
#![tactic(auto)]

pub mod ending;

ghost use Rattle.std.specs.Prelude.{◌≡◌, ◌+◌, ◌≤◌, ◌<◌, length, take, drop, IfOk, OnErr};
ghost use Rattle.promises.specs.Puts.{Puts};
ghost use Rattle.line_stream.specs.Inner.Stream.{kept_of};
ghost use Rattle.line_stream.specs.Inner.Reading.{HoldsPiece, HoldsText};

use std::io::{self, Read};

// The line that starts a text: how many of its bytes were looked at and hold no newline, and how many
// lines came before it.
#[derive(Clone, Copy)]
pub struct HeldLine {
    pub count: usize,
    pub before: u64,
}

// The lines of a text that are answered: those up to `at`, where the next one starts, which `before`
// lines come before. `more` says that lines are left, for whose replies there was no room.
#[derive(Clone, Copy)]
pub struct ServedLines {
    pub at: usize,
    pub before: u64,
    pub more: bool,
}

// Where the last line of a text starts, which no newline ends, and how many lines came before it, for
// all of which the replies were written.
#[derive(Clone, Copy)]
pub struct ServedText {
    pub at: usize,
    pub before: u64,
}

// A text at the start of a buffer, up to `end`: the first `count` bytes are those that were kept. `left`
// bytes may still be read, and `more` says that the input may go on.
#[derive(Clone, Copy)]
pub struct InputText {
    pub count: usize,
    pub end: usize,
    pub left: u64,
    pub more: bool,
}

// Reads a piece of the input in behind the first `count` bytes of the buffer, and answers how many bytes
// came, 0 at the end of the input. Where fewer bytes are left than the buffer has, none come.
fn read_behind<R: Read>(
    input: &mut R,
    buffer: &mut [u8],
    count: usize,
    left: u64,
) -> io::Result<usize>
    requires { count ≤ length buffer.old }
    ensures front { take count buffer.new ≡ take count buffer.old }
    ensures fits { IfOk result (λ n. (count + n ≤ length buffer.old) × (n ≤ left)) }
{
    if left < buffer.len() as u64 {
        return Ok(0);
    }
    input.read(&mut buffer[count..])
}

// Keeps the bytes from `from` up to `end` at the start of the buffer, at most `most` of them, and
// answers how many that are.
fn keep(buffer: &mut [u8], from: usize, end: usize, most: usize) -> usize
    requires from_le_end { from ≤ end }
    requires end_in_bounds { end ≤ length buffer.old }
    ensures { Puts (kept_of most (drop from (take end buffer.old))) buffer.old result buffer.new }
{
    let n = most.min(end - from);
    if 0 < from {
        buffer.copy_within(from..from + n, 0);
    }
    n
}

// Keeps the bytes from `at` up to `end`, at most `most` of them, and reads the input on behind them.
pub fn next_piece<R: Read>(
    input: &mut R,
    buffer: &mut [u8],
    at: usize,
    end: usize,
    most: usize,
    left: u64,
) -> io::Result<InputText>
    requires at_le_end { at ≤ end }
    requires end_in_bounds { end ≤ length buffer.old }
    ensures read { IfOk result (HoldsPiece (kept_of most (drop at (take end buffer.old))) left buffer.new) }

    // Where the read fails, what was kept stands at the start.
    ensures not_read { OnErr result (let kept = kept_of most (drop at (take end buffer.old)) in take (length kept) buffer.new ≡ kept) }
{
    let count = keep(buffer, at, end, most);
    let n = read_behind(input, buffer, count, left)?;
    Ok(InputText {
        count,
        end: count + n,
        left: left - n as u64,
        more: n != 0,
    })
}

// At the end of the input: a line that has bytes gets its newline.
fn last_text(buffer: &mut [u8], count: usize, left: u64) -> InputText
    requires { count < length buffer.old }
    ensures { HoldsText (take count buffer.old) left buffer.new result }
{
    let mut end = count;
    if count != 0 {
        buffer[count] = b'\n';
        end = count + 1;
    }
    InputText {
        count,
        end,
        left,
        more: false,
    }
}

// The next piece behind the line that stands from `at` up to `end`, of which at most `most` bytes are
// kept; at the end of the input the line's newline.
pub fn next_text<R: Read>(
    input: &mut R,
    buffer: &mut [u8],
    at: usize,
    end: usize,
    most: usize,
    left: u64,
) -> io::Result<InputText>
    requires at_le_end { at ≤ end }
    requires end_in_bounds { end ≤ length buffer.old }
    requires most_in_bounds { most < length buffer.old }
    ensures read { IfOk result (HoldsText (kept_of most (drop at (take end buffer.old))) left buffer.new) }

    // Where the read fails, what was kept stands at the start.
    ensures not_read { OnErr result (let kept = kept_of most (drop at (take end buffer.old)) in take (length kept) buffer.new ≡ kept) }
{
    let text = next_piece(input, buffer, at, end, most, left)?;
    if text.more {
        return Ok(text);
    }
    Ok(last_text(buffer, text.count, left))
}
