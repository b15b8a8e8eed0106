// Counts over two 1-bit bodies, eight bytes at a time.
ghost use Rattle.std.specs.Prelude.{◌≡◌, ◌*◌, ◌≤◌, length};
ghost use Rattle.distance_sums.specs.OneBit.{differing as differingOf, overlap_of};

// How many bits are set in both bodies, and in either.
#[derive(Clone, Copy)]
pub struct Overlap {
    pub both: u32,
    pub either: u32,
}

// How many bits differ.
pub fn differing(a: &[u8], b: &[u8]) -> u32
    requires a_len { length a.now ≡ length b.now }
    requires a_len_bound { length a.now ≤ 8192 }
    ensures { result ≡ differingOf a.now b.now (8 * length a.now) }
{
    let size = a.len();
    let words = size / 8;
    let mut count: u32 = 0;
    let mut k = 0;
    while k < words {
        let x = little_endian::u64_at(a, 8 * k);
        let y = little_endian::u64_at(b, 8 * k);
        count += u64::count_ones(x ^ y);
        k += 1;
    }
    let mut i = 8 * words;
    while i < size {
        count += u8::count_ones(a[i] ^ b[i]);
        i += 1;
    }
    count
}

pub fn overlapping(a: &[u8], b: &[u8]) -> Overlap
    requires a_len { length a.now ≡ length b.now }
    requires a_len_bound { length a.now ≤ 8192 }
    ensures { result ≡ overlap_of a.now b.now (8 * length a.now) }
{
    let size = a.len();
    let words = size / 8;
    let mut both: u32 = 0;
    let mut either: u32 = 0;
    let mut k = 0;
    while k < words {
        let x = little_endian::u64_at(a, 8 * k);
        let y = little_endian::u64_at(b, 8 * k);
        both += u64::count_ones(x & y);
        either += u64::count_ones(x | y);
        k += 1;
    }
    let mut i = 8 * words;
    while i < size {
        let x = a[i];
        let y = b[i];
        both += u8::count_ones(x & y);
        either += u8::count_ones(x | y);
        i += 1;
    }
    Overlap { both, either }
}
