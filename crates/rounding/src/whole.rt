// The whole root of a number, digit by digit. `root_digits` is all that the root sees of it.
// docs/ROOT.md explains the method and works an example.
ghost use Rattle.std.specs.Prelude.{◌≡◌, ◌^◌, ◌<◌, ◌≤◌};
ghost use Rattle.rounding.specs.Inner.Parts.{IsWholeRoot};
ghost use Rattle.rounding.specs.Inner.Digits.{next_root, next_rest, first_pairs};

// The whole part of a number's root, and what the number has above its square.
#[derive(Clone, Copy)]
pub struct RootAndRest {
    pub root: u64,
    pub rest: u64,
}

// The whole root of the number that the first n pairs of a's 54 binary digits spell, one digit for
// each pair. When the pairs of a are used up, 00 is brought down.
pub fn root_digits(a: u64, n: u64) -> RootAndRest
    requires a_bound { a < 2 ^ 54 }
    requires n_bound { n ≤ 54 }
    ensures { IsWholeRoot (first_pairs a n) result.root result.rest }
{
    let mut r = RootAndRest { root: 0, rest: 0 };
    let mut left = a;
    let mut i: u64 = 0;
    while i < n {
        r = one_digit(r, (left >> 52) % 4);
        left = left << 2;
        i += 1;
    }
    r
}

// One turn: the root and the rest with one pair more brought down. The digit is a number and a factor:
// an `if` that makes both results is a branch, mispredicted half of the time.
fn one_digit(r: RootAndRest, pair: u64) -> RootAndRest
    requires root_bound { r.root < 2 ^ 60 }
    requires rest_bound { r.rest < 2 ^ 60 }
    requires pair_bound { pair < 4 }
    ensures { (result.root ≡ next_root r.root r.rest pair) × (result.rest ≡ next_rest r.root r.rest pair) }
{
    let have = 4 * r.rest + pair;
    let need = 4 * r.root + 1;
    let digit = if need <= have { 1 } else { 0 };
    RootAndRest {
        root: 2 * r.root + digit,
        rest: have - need * digit,
    }
}
