//! What a word of each kind spells.

ghost use Rattle.std.specs.Prelude.{◌≡◌, IfOk};
ghost use Rattle.tq_model.specs.Grammar.{error_value, name_value, value_of, yes_value};

use crate::flags::flags_of;
use crate::numerals::number_between;
use crate::texts::text_of;
use std::alloc::{AllocError, Global};
use tq_model::{Kind, Value, name_in};

/// What the word spells; None where it is not of the kind.
pub fn value_of(alloc: Global, kind: Kind, word: &[u8]) -> Result<Option<Value>, AllocError>
    ensures { IfOk result (λ value. value ≡ value_of kind word.now) }
{
    match kind {
        Kind::Device => Ok(number_between(0, 7, word)),
        Kind::Session => Ok(number_between(1, 32, word)),
        Kind::Number => Ok(number_between(0, u64::MAX, word)),
        Kind::Name => Ok(name_value(word)),
        Kind::ErrorName => Ok(error_value(word)),
        Kind::Text => Ok(text_of(alloc, word)?.map(Value::Text)),
        Kind::Flags => Ok(flags_of(alloc, word)?.map(Value::Flags)),
        Kind::Yes => Ok(yes_value(word)),
    }
}

fn name_value(word: &[u8]) -> Option<Value>
    ensures { result ≡ name_value word.now }
{
    name_in(word).map(Value::Name)
}

fn yes_value(word: &[u8]) -> Option<Value>
    ensures { result ≡ yes_value word.now }
{
    if word == b"yes".as_slice() {
        return Some(Value::Yes);
    }
    None
}

/// A name, or `-` for none.
fn error_value(word: &[u8]) -> Option<Value>
    ensures { result ≡ error_value word.now }
{
    if word == b"-".as_slice() {
        return Some(Value::ErrorName(None));
    }
    let name = name_in(word)?;
    Some(Value::ErrorName(Some(name)))
}
