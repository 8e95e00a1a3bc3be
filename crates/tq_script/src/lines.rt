ghost use Rattle.std.specs.Prelude.{◌≡◌, ◌<◌, ◌∷◌, ◌==◌, [], length, MatchOption, IfSome};
ghost use Rattle.std.specs.List.{after_first, before_first};
ghost use Rattle.tq_model.specs.Grammar.{script_lines};

use crate::bytes::position_of;

/// The first line of the bytes, without its end, and the bytes behind it; None exactly where there
/// are no bytes. A line ends at a byte 10, which belongs to none, or with the bytes.
pub fn first_line(script: &[u8]) -> Option<(&[u8], &[u8])>
    ensures lines { MatchOption result (script.now ≡ [])
        (λ cut. script_lines script.now ≡ cut.0.now ∷ script_lines cut.1.now) }
    ensures line { IfSome result (λ cut. cut.0.now ≡ before_first (λ b. b == 10) script.now) }
    ensures rest { IfSome result (λ cut. cut.1.now ≡ after_first (λ b. b == 10) script.now) }
    ensures shorter { IfSome result (λ cut. length cut.1.now < length script.now) }
{
    if script.is_empty() {
        return None;
    }
    match position_of(b'\n', script) {
        Some(end) => Some((&script[..end], &script[end + 1..])),
        None => Some((script, &[])),
    }
}
