// What replies of several lines are made of: refusals, and a vector shown.
#![tactic(auto)]

ghost use Rattle.std.specs.Prelude.{◌≡◌, ◌+◌, ◌*◌, ◌≤◌, ◌++◌, length};
ghost use Rattle.reply_texts.specs.Texts.{marked_text, field_text, detail_text, refusal_text, header_text, shown_text, counted_text};

use buffer::Buffer;
use lines::text::{put_decimal, put_head};
use vector_types::{Detail, Refusal};

// Puts a mark and a number.
fn put_marked<const N: usize>(mark: &[u8], number: u64, out: &mut Buffer<N>)
    requires { length out.old + length mark.now + 20 ≤ N }
    ensures puts { out.new ≡ out.old ++ marked_text mark.now number }
    ensures size { length out.new ≤ length out.old + length mark.now + 20 }
{
    out.extend_from_slice(mark);
    put_decimal(number, out);
}

// Puts a number as a further field: a tab and the number.
pub fn put_field<const N: usize>(number: u64, out: &mut Buffer<N>)
    requires { length out.old + 21 ≤ N }
    ensures puts { out.new ≡ out.old ++ field_text number }
    ensures size { length out.new ≤ length out.old + 21 }
{
    put_marked(b"\t", number, out);
}

// Puts what a refusal carries: a further field, or nothing.
#[tactic(auto, unfolding(crate::specs::Texts::detail_text))]
pub fn put_detail<const N: usize>(detail: Detail, out: &mut Buffer<N>)
    requires { length out.old + 21 ≤ N }
    ensures puts { out.new ≡ out.old ++ detail_text detail }
    ensures size { length out.new ≤ length out.old + 21 }
{
    match detail {
        Detail::Nothing => {}
        Detail::Needs(number) | Detail::Starts(number) | Detail::Entry(number) => {
            put_field(number as u64, out)
        }
    }
}

// Puts R, a tab, the number of a refusal and what it carries.
pub fn put_refusal<const N: usize>(refusal: Refusal, out: &mut Buffer<N>)
    requires { length out.old + 43 ≤ N }
    ensures puts { out.new ≡ out.old ++ refusal_text refusal }
    ensures size { length out.new ≤ length out.old + 43 }
{
    put_marked(b"R\t", refusal.number() as u64, out);
    put_detail(refusal.detail(), out);
}

// Puts a mark and two numbers, each with a tab after it.
fn put_header<const N: usize>(mark: &[u8], first: u64, second: u64, out: &mut Buffer<N>)
    requires { length out.old + length mark.now + 42 ≤ N }
    ensures puts { out.new ≡ out.old ++ header_text mark.now first second }
    ensures size { length out.new ≤ length out.old + length mark.now + 42 }
{
    out.extend_from_slice(mark);
    put_head(first, out);
    put_head(second, out);
}

// Puts a mark, two numbers and the bytes of a body.
pub fn put_shown<const N: usize>(
    mark: &[u8],
    first: u64,
    second: u64,
    body: &[u8],
    out: &mut Buffer<N>,
)
    requires { length out.old + length mark.now + 42 + 2 * length body.now ≤ N }
    ensures puts { out.new ≡ out.old ++ shown_text mark.now first second body.now }
    ensures size { length out.new ≤ length out.old + length mark.now + 42 + 2 * length body.now }
{
    put_header(mark, first, second, out);
    lines::hex::put_bytes(body, out);
}

// The same with a count as a further field.
pub fn put_counted<const N: usize>(
    mark: &[u8],
    first: u64,
    second: u64,
    body: &[u8],
    count: u64,
    out: &mut Buffer<N>,
)
    requires { length out.old + length mark.now + 63 + 2 * length body.now ≤ N }
    ensures puts { out.new ≡ out.old ++ counted_text mark.now first second body.now count }
    ensures size { length out.new ≤ length out.old + length mark.now + 63 + 2 * length body.now }
{
    put_shown(mark, first, second, body, out);
    put_field(count, out);
}
