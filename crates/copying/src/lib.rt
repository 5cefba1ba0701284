// Bytes put in front of a room.
#![tactic(auto)]

ghost use Rattle.std.specs.Prelude.{◌≡◌, ◌++◌, ◌≤◌, length, drop};

// Puts bytes in front of a room that is long enough: how many they are.
pub fn copy(from: &[u8], to: &mut [u8]) -> usize
    requires { length from.now ≤ length to.old }
    ensures value { result ≡ length from.now }
    ensures bytes { to.new ≡ from.now ++ drop (length from.now) to.old }
{
    let count = from.len();
    to[..count].copy_from_slice(from);
    count
}
