// A pattern's value as m * 2^e.
ghost use Rattle.std.specs.Prelude.{◌≡◌, ◌-◌, ◌*◌, ◌/◌, ◌^◌, ◌<◌, ◌≤◌};
ghost use Rattle.rounding.specs.Inner.Pick.{digits_of};
ghost use Rattle.rounding.specs.Inner.Parts.{IsNormalized};

// m * 2^e.
#[derive(Clone, Copy)]
pub struct Scaled {
    pub m: u64,
    pub e: u64,
}

// What the pattern b, without its sign, stands for in smallest values: its digits, and its
// exponent's field less one. hid is the field's weight.
pub fn decode(b: u64, hid: u64) -> Scaled
    requires hid_positive { 0 < hid }
    requires hid_bound { hid ≤ 2 ^ 62 }
    ensures { (result.m ≡ digits_of hid b) × (result.e ≡ b / hid - 1) }
{
    let field = b / hid;
    let digits = b % hid;
    if field == 0 {
        return Scaled { m: digits, e: 0 };
    }
    let m = digits + hid;
    let e = field - 1;
    Scaled { m, e }
}

// m * 2^e with m shifted up to hid or more.
pub fn normalize(m: u64, e: u64, hid: u64) -> Scaled
    requires m_positive { 0 < m }
    requires m_bound { m < 2 * hid }
    requires hid_bound { hid ≤ 2 ^ 62 }
    requires e_enough { hid ≤ 2 ^ e }
    ensures { IsNormalized m e hid result.m result.e }
{
    let mut a = m;
    let mut d = e;
    while a < hid {
        a = a * 2;
        d -= 1;
    }
    Scaled { m: a, e: d }
}
