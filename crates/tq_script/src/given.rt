//! The keyed values behind a verb, and what was given with a key.

ghost use Rattle.std.specs.Prelude.{◌≡◌, false, map};
ghost use Rattle.std.specs.List.{position};
ghost use Rattle.std.specs.Option.{option_copied};
ghost use Rattle.tq_model.specs.Grammar.{error_in, flags_in, is_same_key, number_given, number_in, optional_number_in, text_in, value_given, yes_in};
ghost use Rattle.tq_model.specs.declared.grammar.Key as grammar_key;
ghost use Rattle.tq_script.specs.Rows.{given_of};

use std::alloc::Global;
use tq_model::{Flags, Key, Value};
use tq_types::{Body, Name};

/// A key that was given, and its value.
#[derive(Debug, Drop)]
pub struct Given {
    pub key: Key,
    pub value: Value,
}

/// Whether the keys are one.
pub fn is_same_key(one: Key, other: Key) -> bool
    ensures { result ≡ is_same_key one other }
{
    one == other
}

/// The first place of the key.
fn position_of_key(key: Key, given: &[Given]) -> Option<usize>
    ensures { result ≡ position (λ each. is_same_key key each.key) given.now }
{
    given.iter().position(|each| is_same_key(key, each.key))
}

/// The value that was given with the key.
fn value_given(key: Key, given: &[Given]) -> Option<&Value>
    ensures { option_copied result ≡ value_given key (map given_of given.now) }
{
    let at = position_of_key(key, given)?;
    Some(&given[at].value)
}

/// Takes out the value that was given with the key.
pub fn take_given(key: Key, given: &mut Vec<Given>) -> Option<Value>
    ensures value { result ≡ value_given key (map given_of given.old.items) }
    ensures others { (other : grammar_key.Key) → is_same_key other key ≡ false
        → value_given other (map given_of given.new.items) ≡ value_given other (map given_of given.old.items) }
{
    let at = position_of_key(key, given)?;
    Some(given.remove(at).value)
}

/// The number that was given with the key.
pub fn number_given(key: Key, given: &[Given]) -> Option<u64>
    ensures { result ≡ number_given key (map given_of given.now) }
{
    match value_given(key, given) {
        Some(Value::Number(number)) => Some(*number),
        _ => None,
    }
}

/// The number that was given with the key, which may be left out.
pub fn optional_number_given(key: Key, given: &[Given]) -> Option<Option<u64>>
    ensures { result ≡ optional_number_in (value_given key (map given_of given.now)) }
{
    match value_given(key, given) {
        None => Some(None),
        Some(Value::Number(number)) => Some(Some(*number)),
        Some(_) => None,
    }
}

/// The name of the error queue that was given with the key.
pub fn error_given(key: Key, given: &[Given]) -> Option<Option<Name>>
    ensures { result ≡ error_in (value_given key (map given_of given.now)) }
{
    match value_given(key, given) {
        Some(Value::ErrorName(name)) => Some(*name),
        _ => None,
    }
}

/// Whether the key was given, which takes `yes` alone.
pub fn yes_given(key: Key, given: &[Given]) -> Option<bool>
    ensures { result ≡ yes_in (value_given key (map given_of given.now)) }
{
    match value_given(key, given) {
        None => Some(false),
        Some(Value::Yes) => Some(true),
        Some(_) => None,
    }
}

/// The flags of the value; no flags where there is none.
pub fn flags_in(alloc: Global, value: Option<Value>) -> Option<Flags>
    ensures { result ≡ flags_in value }
{
    match value {
        None => Some(Flags::new(alloc)),
        Some(Value::Flags(flags)) => Some(flags),
        Some(_) => None,
    }
}

/// The bytes of the value.
pub fn text_in(value: Option<Value>) -> Option<Body>
    ensures { result ≡ text_in value }
{
    match value {
        Some(Value::Text(body)) => Some(body),
        _ => None,
    }
}
