//! Texts: bytes in quotes.

ghost use Rattle.std.specs.Prelude.{◌≡◌, ◌<◌, ◌≤◌, ◌++◌, length, option_map, if◌then◌else◌, Some, None, IfOk, IfSome, MatchOption};
ghost use Rattle.std.specs.Char.{digit_value, is_ascii_hexdigit};
ghost use Rattle.tq_model.specs.Grammar.{Backslash, Item, text_from, text_of, with_text_byte};
ghost use Rattle.tq_script.specs.Runs.{text_behind_run};

use std::alloc::{AllocError, Global};
use tq_types::{Body, plain_run};

/// The text that the word spells; None where it spells none.
pub fn text_of(alloc: Global, word: &[u8]) -> Result<Option<Body>, AllocError>
    ensures { IfOk result (λ text. text ≡ text_of word.now) }
{
    match word {
        [b'"', quoted @ ..] => read_quoted(alloc, quoted),
        _ => Ok(None),
    }
}

/// What is spelt behind a text's first quote, up to the quote at the end.
fn read_quoted(alloc: Global, quoted: &[u8]) -> Result<Option<Body>, AllocError>
    ensures { IfOk result (λ text. text ≡ text_from Item quoted.now) }
{
    let (run, mut rest) = split_run(quoted);
    let mut text = Vec::from_slice(alloc, run)?;
    while let [b'\\', escaped @ ..] = rest {
        let Some((byte, behind)) = split_escaped(escaped) else {
            return Ok(None);
        };
        text.push(byte)?;
        let (run, behind) = split_run(behind);
        text.extend_from_slice(run)?;
        rest = behind;
    }
    match rest {
        [b'"'] => Ok(Some(Body::from_vec(text))),
        _ => Ok(None),
    }
}

/// The bytes that spell themselves, up to the first that does not, and what stands behind them.
#[tactic(auto, using(crate::proofs::TextRuns::run_steps))]
fn split_run(quoted: &[u8]) -> (&[u8], &[u8])
    ensures text { text_from Item quoted.now ≡ option_map (λ bytes. result.0.now ++ bytes) (text_behind_run result.1.now) }
    ensures shorter { length result.1.now ≤ length quoted.now }
{
    quoted.split_at(plain_run(quoted))
}

/// The byte that is spelt behind a backslash and what stands behind it.
fn split_escaped(escaped: &[u8]) -> Option<(u8, &[u8])>
    ensures item { MatchOption result (text_from Backslash escaped.now ≡ None)
        (λ cut. text_from Backslash escaped.now ≡ with_text_byte cut.0 (text_from Item cut.1.now)) }
    ensures shorter { IfSome result (λ cut. length cut.1.now < length escaped.now) }
{
    match escaped {
        [byte @ (b'"' | b'\\'), rest @ ..] => Some((*byte, rest)),
        [high, low, rest @ ..] => {
            let high = hex_digit(*high)?;
            let low = hex_digit(*low)?;
            Some((16 * high + low, rest))
        }
        _ => None,
    }
}

/// The value of a hexadecimal digit.
fn hex_digit(byte: u8) -> Option<u8>
    ensures value { result ≡ (if is_ascii_hexdigit byte then Some (digit_value byte) else None) }
    ensures below { IfSome result (λ digit. digit < 16) }
{
    if !byte.is_ascii_hexdigit() {
        return None;
    }
    let digit = char::from(byte).to_digit(16)?;
    Some(digit as u8)
}
