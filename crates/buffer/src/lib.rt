// Bytes that grow at their end, up to a fixed number: what the programs write is put together in one, with no heap.
#![tactic(auto)]

ghost use Rattle.std.specs.Prelude.{◌≡◌, ◌+◌, ◌-◌, ◌≤◌, ◌<◌, ℕ, List, [], ◌∷◌, ◌++◌, length, take, eqb};

use std::marker::Model;

/// Bytes that are made where they are to stand.
pub trait Source {
    ghost made: { Self → List ℕ };

    // How many bytes are made.
    fn len(&self) -> usize
        ensures { result ≡ length (made self.now) };

    // Makes the bytes in a slice that they fill.
    fn make(&self, out: &mut [u8])
        requires { length out.old ≡ length (made self.now) }
        ensures { out.new ≡ made self.now };
}

/// At most `N` bytes.
#[derive(Drop)]
pub struct Buffer<const N: usize> {
    bytes: [u8; N],
    filled: usize,
}

// Clauses see the bytes that were put.
impl<const N: usize> Model for Buffer<N> {
    ghost Value = { List ℕ };

    ghost view = { λ b. take b.filled b.bytes };

    ghost invariant = { λ b. b.filled ≤ N };
}

impl<const N: usize> Buffer<N> {
    pub fn new() -> Self
        ensures { result ≡ [] }
    {
        Buffer {
            bytes: [0; N],
            filled: 0,
        }
    }

    pub fn len(&self) -> usize
        ensures value { result ≡ length self.now }
        ensures upper_bound { result ≤ N }
    {
        self.filled
    }

    pub fn is_empty(&self) -> bool
        ensures { result ≡ eqb (length self.now) 0 }
    {
        self.filled == 0
    }

    // How many bytes more may be put.
    pub fn room(&self) -> usize
        ensures { result ≡ N - length self.now }
    {
        N - self.filled
    }

    pub fn as_slice(&self) -> &[u8]
        ensures { result.now ≡ self.now }
    {
        &self.bytes[..self.filled]
    }

    pub fn clear(&mut self)
        ensures { self.new ≡ [] }
    {
        self.filled = 0;
    }

    // Keeps the first n bytes.
    pub fn truncate(&mut self, n: usize)
        ensures { self.new ≡ take n self.old }
    {
        if n < self.filled {
            self.filled = n;
        }
    }

    pub fn push(&mut self, byte: u8)
        requires { length self.old < N }
        ensures { self.new ≡ self.old ++ byte ∷ [] }
    {
        self.bytes[self.filled] = byte;
        self.filled += 1;
    }

    pub fn extend_from_slice(&mut self, bytes: &[u8])
        requires { length self.old + length bytes.now ≤ N }
        ensures { self.new ≡ self.old ++ bytes.now }
    {
        let start = self.filled;
        let end = start + bytes.len();
        let all = &mut self.bytes[..];
        all[start..end].copy_from_slice(bytes);
        self.filled = end;
    }

    // Puts bytes that are made in their place, so that they need not be copied there.
    pub fn extend_from<S: Source>(&mut self, source: &S)
        requires { length self.old + length (S.made source.now) ≤ N }
        ensures { self.new ≡ self.old ++ S.made source.now }
    {
        let first = self.filled;
        let end = first + source.len();
        let all = &mut self.bytes[..];
        source.make(&mut all[first..end]);
        self.filled = end;
    }
}
