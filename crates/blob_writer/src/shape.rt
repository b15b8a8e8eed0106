// The kind and dims of a vector that can be written: which bodies fit them, and what follows a body in its blob.
ghost use Rattle.std.specs.Prelude.{◌≡◌, ◌≤◌, ◌<◌, ◌&&◌, eqb, length, MatchResult};
ghost use Rattle.promises.specs.Onto.{onto};
ghost use Rattle.vector_types.specs.Layout.{max_dims, has_trailing_count, body_fits};
ghost use Rattle.vector_types.specs.declared.Refusal.TheVariants.{DimsOverLimit};
ghost use Rattle.blob_writer.specs.Write.{filler, trailing_bits, trailing_bytes, tail_of};
ghost use Rattle.blob_writer.specs.Inner.Count.{count_of};

use vector_types::{Dims, MAX_DIMS, Refusal, TrailingBits, TrailingBytes, VectorType, align4};

// How many zero bytes stand between a 1-bit body and its count.
fn filler_length(size: usize) -> usize
    ensures { result ≡ length (filler size) }
{
    1 - size % 2
}

// Puts a trailing count and the type byte at the start of out, after a zero byte if `filled`.
fn put_count(filled: bool, count: u8, byte: u8, out: &mut [u8])
    requires { length (count_of filled count byte) ≤ length out.old }
    ensures { out.new ≡ onto (count_of filled count byte) out.old }
{
    if filled {
        out[0] = 0;
        out[1] = count;
        out[2] = byte;
    } else {
        out[0] = count;
        out[1] = byte;
    }
}

// The kind of a vector and how many elements it has, no more than the limit.
#[derive(Clone, Copy)]
pub(crate) struct Shape {
    pub kind: VectorType,
    pub dims: Dims,
    ghost few: { dims.0 ≤ max_dims },
}

impl Shape {
    pub fn of(kind: VectorType, dims: Dims) -> Result<Self, Refusal>
        ensures { MatchResult result (λ shape. (shape.kind ≡ kind) × (shape.dims ≡ dims)) (λ refusal. (refusal ≡ DimsOverLimit) × (max_dims < dims.0)) }
    {
        if MAX_DIMS < dims.0 {
            return Err(Refusal::DimsOverLimit);
        }
        Ok(Shape { kind, dims })
    }

    // Whether a body of so many bytes is what such a vector has.
    #[tactic(auto, unfolding(vector_types::specs::Layout::body_fits))]
    pub fn fits(self, size: usize) -> bool
        ensures { result ≡ body_fits self.kind self.dims.0 size }
    {
        match self.kind {
            VectorType::Float32Dense => size == 4 * self.dims.0,
            VectorType::Float64Dense => size == 8 * self.dims.0,
            VectorType::Float32Sparse => size % 8 == 0,
            VectorType::Float1Bit => size == (self.dims.0 + 7) / 8,
            VectorType::Float8 => size == align4(self.dims.0) + 8,
        }
    }

    // Whether there is no element, in a kind that must have one.
    pub fn lacks_elements(self) -> bool
        ensures { result ≡ (has_trailing_count self.kind && eqb self.dims.0 0) }
    {
        matches!(self.kind, VectorType::Float1Bit | VectorType::Float8) && self.dims.0 == 0
    }

    // The count of a 1-bit blob, and of a Float8 one.
    fn trailing_bits(self) -> TrailingBits
        ensures { result.0 ≡ trailing_bits self.dims.0 }
    {
        let size = (self.dims.0 + 7) / 8;
        let before = size + filler_length(size) + 1;
        TrailingBits(8 * before - self.dims.0)
    }

    fn trailing_bytes(self) -> TrailingBytes
        ensures { result.0 ≡ trailing_bytes self.dims.0 }
    {
        TrailingBytes(align4(self.dims.0) - self.dims.0)
    }

    // How many bytes follow the body.
    #[tactic(auto, unfolding(crate::specs::Write::tail_of), using(crate::proofs::Tails::tails))]
    pub fn tail_length(self) -> usize
        ensures { result ≡ length (tail_of self.kind self.dims.0) }
    {
        match self.kind {
            VectorType::Float32Dense => 0,
            VectorType::Float64Dense => 1,
            VectorType::Float32Sparse => 5,
            VectorType::Float1Bit => 2 + filler_length((self.dims.0 + 7) / 8),
            VectorType::Float8 => 3,
        }
    }

    // Puts what follows the body at the start of out.
    #[tactic(auto, unfolding(crate::specs::Write::tail_of), using(crate::proofs::Tails::tails))]
    pub fn put_tail(self, out: &mut [u8])
        requires { length (tail_of self.kind self.dims.0) ≤ length out.old }
        ensures { out.new ≡ onto (tail_of self.kind self.dims.0) out.old }
    {
        match self.kind {
            VectorType::Float32Dense => {}
            VectorType::Float64Dense => out[0] = 2,
            VectorType::Float32Sparse => {
                little_endian::put_u32(out, 0, self.dims.0 as u32);
                out[4] = 9;
            }
            VectorType::Float1Bit => {
                let filled = (self.dims.0 + 7) / 8 % 2 == 0;
                put_count(filled, self.trailing_bits().0 as u8, 3, out)
            }
            VectorType::Float8 => put_count(true, self.trailing_bytes().0 as u8, 4, out),
        }
    }
}
