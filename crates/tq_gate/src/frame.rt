ghost use Rattle.std.specs.Prelude.{◌≡◌, ◌<◌, ◌^◌, length, drop};
ghost use Rattle.tq_gate.specs.Frame.{IsFrame, payload_in, behind_gate};

use tq_field::put_u32;

/// The free bytes of a frame before its payload.
pub const BEFORE_PAYLOAD: usize = 5;

/// The free bytes of a frame, before its payload and behind it.
pub const AROUND_PAYLOAD: usize = 6;

/// The byte of a closed gate.
pub(crate) const CLOSED_GATE: u8 = 0;

// Writes the payload's length before it, and a closed gate behind it.
pub(crate) fn close_frame(frame: &mut [u8])
    requires frame { IsFrame frame.old }
    requires short { length frame.old < 2 ^ 32 }
    ensures { drop 1 frame.new ≡ behind_gate (payload_in frame.old) }
{
    let last = frame.len() - 1;
    match put_u32(frame, 1, (last - BEFORE_PAYLOAD) as u32) {
        Ok(()) => frame[last] = CLOSED_GATE,
        Err(_) => unreachable!(),
    }
}
