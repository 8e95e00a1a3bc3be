//! The names of flags.

ghost use Rattle.std.specs.Prelude.{◌≡◌, IfOk};
ghost use Rattle.tq_model.specs.Grammar.{flag_among, flag_word, flags_from, known_flags, pieces};
ghost use Rattle.tq_script.specs.Named.{names_one, next_flag};

use std::alloc::{AllocError, Global};
use tq_model::{Flag, Flags};

/// The flags that a script may name.
const KNOWN_FLAGS: [Flag; 2] = [Flag::NoFlags, Flag::MessageId];

/// The flags that the word names, with `|` between them; None where a name is none of a flag or
/// stands twice.
pub fn flags_of(alloc: Global, word: &[u8]) -> Result<Option<Flags>, AllocError>
    ensures { IfOk result (λ flags. flags ≡ flags_from (pieces word.now)) }
{
    let mut flags = Flags::new(alloc);
    for name in word.split(|byte| *byte == b'|') {
        let Some(flag) = next_flag(flags.as_slice(), name) else {
            return Ok(None);
        };
        flags.push(flag)?;
    }
    Ok(Some(flags))
}

/// The flag of that name; None where it is among those that came before.
fn next_flag(before: &[Flag], name: &[u8]) -> Option<Flag>
    ensures { result ≡ next_flag before.now name.now }
{
    if is_named(before, name) {
        None
    } else {
        flag_named(name)
    }
}

/// Whether one of the flags has the name.
fn is_named(flags: &[Flag], name: &[u8]) -> bool
    ensures { result ≡ names_one flags.now name.now }
{
    flags.iter().any(|flag| name == flag_word(*flag))
}

/// The flag that is spelt so.
fn flag_named(name: &[u8]) -> Option<Flag>
    ensures { result ≡ flag_among known_flags name.now }
{
    for flag in &KNOWN_FLAGS {
        if name == flag_word(*flag) {
            return Some(*flag);
        }
    }
    None
}

fn flag_word(flag: Flag) -> &'static [u8]
    ensures { result.now ≡ flag_word flag }
{
    match flag {
        Flag::NoFlags => b"TPNOFLAGS",
        Flag::MessageId => b"TPQMSGID",
    }
}
