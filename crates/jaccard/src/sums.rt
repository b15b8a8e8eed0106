// The running sums of a Jaccard, in either width, and the distance of vectors with such sums.
ghost use Rattle.std.specs.Prelude.{◌≡◌, true, cond};
ghost use Rattle.std.specs.Float.{nan, binary32, binary64};
ghost use Rattle.std.specs.Float.Ieee.{of_bits, eq, lt};
ghost use Rattle.float_laws.specs.Zero.{plus_zero, FromZero};
ghost use Rattle.distance_sums.specs.Extremes.{lesser, greater};
ghost use Rattle.distance_sums.specs.Dense.{no_shares, shares_with, jaccard_by};
ghost use Rattle.jaccard.specs.Inner.Sums.{shares32, shares64};

// The lesser and the greater of two, the first a number: Rust's `min` and `max`. A NaN compares false.
fn lesser32(x: f32, y: f32) -> f32
    requires { eq x x ≡ true }
    ensures { result ≡ lesser x y }
{
    if y < x { y } else { x }
}

fn greater32(x: f32, y: f32) -> f32
    requires { eq x x ≡ true }
    ensures { result ≡ greater x y }
{
    if x < y { y } else { x }
}

fn lesser64(x: f64, y: f64) -> f64
    requires { eq x x ≡ true }
    ensures { result ≡ lesser x y }
{
    if y < x { y } else { x }
}

fn greater64(x: f64, y: f64) -> f64
    requires { eq x x ≡ true }
    ensures { result ≡ greater x y }
{
    if x < y { y } else { x }
}

// x where it is greater than 0.0, and else 0.0.
fn above_zero(x: f32) -> f32
    ensures { result ≡ cond (lt plus_zero x) x plus_zero }
{
    if 0.0 < x { x } else { 0.0 }
}

// The running sums of a Jaccard: of the lesser and of the greater elements.
#[derive(Clone, Copy)]
pub struct JaccardSums32 {
    pub low: f32,
    pub high: f32,
}

#[derive(Clone, Copy)]
pub struct JaccardSums64 {
    pub low: f64,
    pub high: f64,
}

impl JaccardSums32 {
    pub(crate) fn new() -> Self
        ensures { shares32 result ≡ no_shares }
    {
        Self {
            low: 0.0,
            high: 0.0,
        }
    }

    // One pair more, the first a number.
    fn with_number(self, x: f32, y: f32) -> Self
        requires { eq x x ≡ true }
        ensures { shares32 result ≡ shares_with lesser greater binary32 (shares32 self) x y }
    {
        Self {
            low: self.low + lesser32(x, y),
            high: self.high + greater32(x, y),
        }
    }

    // One pair more, the first a NaN: the second is the lesser and the greater.
    fn with_nan(self, y: f32) -> Self
        ensures { shares32 result ≡ shares_with lesser greater binary32 (shares32 self) nan y }
    {
        Self {
            low: self.low + y,
            high: self.high + y,
        }
    }

    // One pair more.
    pub(crate) fn step(self, x: f32, y: f32) -> Self
        ensures { shares32 result ≡ shares_with lesser greater binary32 (shares32 self) x y }
    {
        if x == x {
            self.with_number(x, y)
        } else {
            self.with_nan(y)
        }
    }

    // One pair more, by the patterns: each is tested once.
    pub(crate) fn step_bits(self, p: u32, q: u32) -> Self
        ensures { shares32 result ≡ shares_with lesser greater binary32 (shares32 self) (of_bits binary32 p) (of_bits binary32 q) }
    {
        let y = little_endian::f32_of(q);
        if p % 0x8000_0000 <= 0x7f80_0000 {
            let x = f32::from_bits(p);
            self.with_number(x, y)
        } else {
            self.with_nan(y)
        }
    }

    // One element more that only one vector has; the other's is 0.0. A zero changes no sum that starts
    // from 0.0, and a NaN is passed over.
    pub(crate) fn alone(self, x: f32) -> Self
        requires low_from_zero { FromZero binary32 self.low }
        requires high_from_zero { FromZero binary32 self.high }
        ensures { shares32 result ≡ shares_with lesser greater binary32 (shares32 self) x plus_zero }
    {
        if x < 0.0 {
            Self {
                low: self.low + x,
                high: self.high,
            }
        } else {
            Self {
                low: self.low,
                high: self.high + above_zero(x),
            }
        }
    }

    // The distance of vectors with these sums.
    pub(crate) fn distance(self) -> f64
        ensures { result ≡ jaccard_by binary32 (shares32 self) }
    {
        if self.high == 0.0 {
            return 0.0 / 0.0;
        }
        let ratio = self.low / self.high;
        1.0 - rounding::widen(ratio)
    }
}

impl JaccardSums64 {
    pub(crate) fn new() -> Self
        ensures { shares64 result ≡ no_shares }
    {
        Self {
            low: 0.0,
            high: 0.0,
        }
    }

    // One pair more, the first a number.
    fn with_number(self, x: f64, y: f64) -> Self
        requires { eq x x ≡ true }
        ensures { shares64 result ≡ shares_with lesser greater binary64 (shares64 self) x y }
    {
        Self {
            low: self.low + lesser64(x, y),
            high: self.high + greater64(x, y),
        }
    }

    // One pair more, the first a NaN: the second is the lesser and the greater.
    fn with_nan(self, y: f64) -> Self
        ensures { shares64 result ≡ shares_with lesser greater binary64 (shares64 self) nan y }
    {
        Self {
            low: self.low + y,
            high: self.high + y,
        }
    }

    // One pair more.
    pub(crate) fn step(self, x: f64, y: f64) -> Self
        ensures { shares64 result ≡ shares_with lesser greater binary64 (shares64 self) x y }
    {
        if x == x {
            self.with_number(x, y)
        } else {
            self.with_nan(y)
        }
    }

    // One pair more, by the patterns: each is tested once.
    pub(crate) fn step_bits(self, p: u64, q: u64) -> Self
        ensures { shares64 result ≡ shares_with lesser greater binary64 (shares64 self) (of_bits binary64 p) (of_bits binary64 q) }
    {
        let y = little_endian::f64_of(q);
        if p % 0x8000_0000_0000_0000 <= 0x7ff0_0000_0000_0000 {
            let x = f64::from_bits(p);
            self.with_number(x, y)
        } else {
            self.with_nan(y)
        }
    }

    // The distance of vectors with these sums.
    pub(crate) fn distance(self) -> f64
        ensures { result ≡ jaccard_by binary64 (shares64 self) }
    {
        if self.high == 0.0 {
            return 0.0 / 0.0;
        }
        1.0 - self.low / self.high
    }
}
