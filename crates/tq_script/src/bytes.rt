//! Where bytes stand.

ghost use Rattle.std.specs.Prelude.{◌≡◌, ◌==◌, drop};
ghost use Rattle.std.specs.List.{position, position_or_len};
ghost use Rattle.memchr.specs.Find.{is_byte2};

use memchr::{memchr, memchr2};

/// The first place of the byte.
pub fn position_of(byte: u8, bytes: &[u8]) -> Option<usize>
    ensures { result ≡ position (λ b. b == byte) bytes.now }
{
    memchr(byte, bytes)
}

/// The first place of either byte.
fn position_of_either(one: u8, other: u8, bytes: &[u8]) -> Option<usize>
    ensures { result ≡ position (is_byte2 one other) bytes.now }
{
    memchr2(one, other, bytes)
}

/// The bytes from the first place of either byte on; none where neither stands among them.
pub fn skip_to_either(one: u8, other: u8, bytes: &[u8]) -> &[u8]
    ensures { result.now ≡ drop (position_or_len (is_byte2 one other) bytes.now) bytes.now }
{
    match position_of_either(one, other, bytes) {
        Some(at) => &bytes[at..],
        None => &[],
    }
}
