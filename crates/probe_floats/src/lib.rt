// The lines about one float: root, narrow, widen, trunc.
#![tactic(auto)]

ghost use Rattle.std.specs.Prelude.{◌≡◌, ◌+◌, ◌≤◌, ◌<◌, ◌^◌, ◌++◌, length};
ghost use Rattle.lines.specs.Parts.{fields_of};
ghost use Rattle.lines.specs.Fields.{exactly, PutsUnlessMalformed};
ghost use Rattle.probe_floats.specs.Floats.{work_of, float_text, float_reply, root_of, root_reply};

use buffer::Buffer;
use lines::hex::{pattern, put_hex};
use lines::text::{put_malformed, split_field};

// What is asked of a float's pattern.
#[derive(Clone, Copy)]
pub enum Work {
    Root32,
    Root64,
    Narrow,
    Widen,
    Trunc,
}

// How many digits the pattern has, and how many the result.
#[derive(Clone, Copy)]
struct Digits {
    takes: usize,
    gives: usize,
}

fn widths(work: Work) -> Digits
    ensures { (result.takes ≡ (work_of work).takes) × (result.gives ≡ (work_of work).gives) }
{
    match work {
        Work::Root32 => Digits { takes: 8, gives: 8 },
        Work::Root64 => Digits {
            takes: 16,
            gives: 16,
        },
        Work::Narrow => Digits {
            takes: 16,
            gives: 8,
        },
        Work::Widen => Digits {
            takes: 8,
            gives: 16,
        },
        Work::Trunc => Digits { takes: 8, gives: 2 },
    }
}

// The result for the pattern n.
fn result(work: Work, n: u64) -> u64
    requires { n < 16 ^ (work_of work).takes }
    ensures value { result ≡ (work_of work).result n }
    ensures upper_bound { result < 16 ^ (work_of work).gives }
{
    match work {
        Work::Root32 => {
            let x = little_endian::f32_of(n as u32);
            little_endian::bits32(rounding::root32(x)) as u64
        }
        Work::Root64 => {
            let x = little_endian::f64_of(n);
            little_endian::bits64(rounding::root64(x))
        }
        Work::Narrow => {
            let x = little_endian::f64_of(n);
            little_endian::bits32(rounding::narrow(x)) as u64
        }
        Work::Widen => {
            let x = little_endian::f32_of(n as u32);
            little_endian::bits64(rounding::widen(x))
        }
        Work::Trunc => {
            let x = little_endian::f32_of(n as u32);
            rounding::truncate(x) as u64
        }
    }
}

// Puts F, a tab and n in `width` digits.
fn put_float<const N: usize>(width: usize, n: u64, out: &mut Buffer<N>)
    requires le_width { 1 ≤ width }
    requires width_bound { width ≤ 16 }
    requires n_bound { n < 16 ^ width }
    requires room { length out.old + 18 ≤ N }
    ensures puts { out.new ≡ out.old ++ float_text width n }
    ensures size { length out.new ≤ length out.old + 18 }
{
    out.extend_from_slice(b"F\t");
    put_hex(width, n, out);
}

// Puts the reply to narrow|F, widen|F or trunc|F, of which the work is found and this is F.
fn put_float_reply<const N: usize>(work: Work, field: &[u8], out: &mut Buffer<N>) -> Option<()>
    requires { length out.old + 18 ≤ N }
    ensures puts { PutsUnlessMalformed (float_reply work field.now) out.old result out.new }
    ensures size { length out.new ≤ length out.old + 18 }
{
    let w = widths(work);
    let n = pattern(w.takes, field)?;
    let value = result(work, n);
    put_float(w.gives, value, out);
    Some(())
}

// The reply to narrow|F, widen|F or trunc|F, of which the work is found and this is F.
pub fn float_line<const N: usize>(work: Work, field: &[u8], out: &mut Buffer<N>)
    requires { length out.old + 18 ≤ N }
    ensures puts { out.new ≡ out.old ++ float_reply work field.now }
    ensures size { length out.new ≤ length out.old + 18 }
{
    if put_float_reply(work, field, out).is_none() {
        put_malformed(out);
    }
}

// The root that a width names.
fn root_of(width: &[u8]) -> Option<Work>
    ensures { result ≡ root_of width.now }
{
    match width {
        b"32" => Some(Work::Root32),
        b"64" => Some(Work::Root64),
        _ => None,
    }
}

// Puts the reply to root|W|F, of which this is W|F.
fn put_root_reply<const N: usize>(rest: &[u8], out: &mut Buffer<N>) -> Option<()>
    requires { length out.old + 18 ≤ N }
    ensures puts { PutsUnlessMalformed (exactly 2 root_reply (fields_of rest.now)) out.old result out.new }
    ensures size { length out.new ≤ length out.old + 18 }
{
    let (width, field) = split_field(rest)?;
    let work = root_of(width)?;
    put_float_reply(work, field, out)
}

// The reply to root|W|F, of which this is W|F.
pub fn root_line<const N: usize>(rest: &[u8], out: &mut Buffer<N>)
    requires { length out.old + 18 ≤ N }
    ensures puts { out.new ≡ out.old ++ exactly 2 root_reply (fields_of rest.now) }
    ensures size { length out.new ≤ length out.old + 18 }
{
    if put_root_reply(rest, out).is_none() {
        put_malformed(out);
    }
}
