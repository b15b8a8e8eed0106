// Bytes copied to the front of a buffer, and the first place of a byte.
#![tactic(auto)]

ghost use Rattle.std.specs.Prelude.{◌≡◌, ◌<◌, ◌≤◌, ◌==◌, length, position, IfSome};
ghost use Rattle.promises.specs.Puts.{Puts};

// Puts the bytes at the start of out, and answers how many there are. A loop, since the library may need
// no memcpy.
pub fn copy(bytes: &[u8], out: &mut [u8]) -> usize
    requires { length bytes.now ≤ length out.old }
    ensures { Puts bytes.now out.old result out.new }
{
    for (i, b) in bytes.iter().enumerate() {
        out[i] = *b;
    }
    bytes.len()
}

// Where b first stands in s. Not inlined, since its callers' counts in the same loop make it half as slow again.
#[inline(never)]
pub fn find(s: &[u8], b: u8) -> Option<usize>
    ensures value { result ≡ position (λ x. x == b) s.now }
    ensures in_bounds { IfSome result (λ at. at < length s.now) }
{
    s.iter().position(|x| *x == b)
}
