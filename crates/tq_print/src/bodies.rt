//! Bodies as texts.

ghost use Rattle.std.specs.Prelude.{◌≡◌, ◌<◌, ◌≤◌, ◌++◌, false, length, IfOk, OnOk};
ghost use Rattle.std.specs.Fmt.{digit_glyph};
ghost use Rattle.std.specs.List.{flat_map};
ghost use Rattle.tq_model.specs.Text.{byte_text, body_text};

use std::alloc::AllocError;
use tq_types::plain_run;

/// The hexadecimal digit of this value, in lower case.
fn hexadecimal_digit(value: u8) -> u8
    requires { value < 16 }
    ensures { result ≡ digit_glyph false value }
{
    if value < 10 {
        b'0' + value
    } else {
        b'a' + (value - 10)
    }
}

/// Appends a byte as it stands in a text: as itself, behind a backslash, or as a backslash and two
/// hexadecimal digits.
pub fn push_byte(text: &mut Vec<u8>, byte: u8) -> Result<(), AllocError>
    ensures { OnOk result (text.new.items ≡ text.old.items ++ byte_text byte) }
{
    match byte {
        b'"' | b'\\' => text.extend_from_slice(&[b'\\', byte])?,
        b' '..=b'~' => text.push(byte)?,
        _ => text.extend_from_slice(&[
            b'\\',
            hexadecimal_digit(byte / 16),
            hexadecimal_digit(byte % 16),
        ])?,
    }
    Ok(())
}

/// Appends the bytes that stand in a text as themselves, up to the first that does not, and gives
/// those behind them.
#[tactic(auto, using(tq_types::proofs::TextRuns::run_within))]
fn push_run<'a>(text: &mut Vec<u8>, bytes: &'a [u8]) -> Result<&'a [u8], AllocError>
    ensures text { IfOk result (λ rest. text.new.items ++ flat_map byte_text rest.now ≡ text.old.items ++ flat_map byte_text bytes.now) }
    ensures shorter { IfOk result (λ rest. length rest.now ≤ length bytes.now) }
{
    let (run, rest) = bytes.split_at(plain_run(bytes));
    text.extend_from_slice(run)?;
    Ok(rest)
}

/// Appends bytes as they stand in a text.
pub fn push_bytes(text: &mut Vec<u8>, bytes: &[u8]) -> Result<(), AllocError>
    ensures { OnOk result (text.new.items ≡ text.old.items ++ flat_map byte_text bytes.now) }
{
    let mut rest = bytes;
    loop {
        rest = push_run(text, rest)?;
        let [byte, behind @ ..] = rest else {
            return Ok(());
        };
        push_byte(text, *byte)?;
        rest = behind;
    }
}

/// Appends a body between quotes.
pub fn push_body(text: &mut Vec<u8>, bytes: &[u8]) -> Result<(), AllocError>
    ensures { OnOk result (text.new.items ≡ text.old.items ++ body_text bytes.now) }
{
    text.push(b'"')?;
    push_bytes(text, bytes)?;
    text.push(b'"')?;
    Ok(())
}
