// Packing bits into bytes.
ghost use Rattle.std.specs.Prelude.{◌≡◌, cond};

// What a bit adds to its byte.
pub fn weighed(set: bool, weight: u32) -> u32
    ensures { result ≡ cond set weight 0 }
{
    if set { weight } else { 0 }
}
