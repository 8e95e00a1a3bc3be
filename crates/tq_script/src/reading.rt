ghost use Rattle.std.specs.Prelude.{◌≡◌, ◌∷◌, [], List, map};
ghost use Rattle.tq_model.specs.Grammar as grammar;
ghost use Rattle.tq_model.specs.Grammar.{Spelt, row_of, scan, scan_keyed, with_value};
ghost use Rattle.tq_model.specs.declared.grammar.Kind as grammar_kind;
ghost use Rattle.tq_script.specs.Cutting.{words_of};
ghost use Rattle.tq_script.specs.Reads.{ReadsAs, with_read};
ghost use Rattle.tq_script.specs.Rows.{given_of};

use crate::cutting::Words;
use crate::given::Given;
use crate::keys::read_keyed;
use crate::table::row_of;
use crate::unread::Unread;
use crate::values::value_of;
use std::alloc::Global;
use tq_model::{Kind, Value, Verb};

/// The values and the keyed values behind a verb.
pub fn read_words(
    alloc: Global,
    verb: Verb,
    words: Words<'_>,
) -> Result<(Vec<Value>, Vec<Given>), Unread>
    ensures { ReadsAs result
        (scan (row_of verb).positional (row_of verb).keyed (words_of words.entry.column words.entry.rest.now))
        (λ read. Spelt read.0.items (map given_of read.1.items)) }
{
    let row = row_of(verb);
    let (values, rest) = read_positional(alloc, row.positional, words)?;
    let given = read_keyed(alloc, row.keyed, rest)?;
    Ok((values, given))
}

/// The positional values and the words behind them.
fn read_positional<'a>(
    alloc: Global,
    kinds: &[Kind],
    words: Words<'a>,
) -> Result<(Vec<Value>, Words<'a>), Unread>
    ensures { (rows : List grammar.KeyRow) → ReadsAs result
        (scan kinds.now rows (words_of words.entry.column words.entry.rest.now))
        (λ read. with_read read.0.items [] (scan_keyed rows (words_of read.1.column read.1.rest.now))) }
{
    let mut values = Vec::new(alloc);
    let mut words = words;
    for kind in kinds {
        let (value, rest) = read_value(alloc, *kind, words)?;
        values.push(value)?;
        words = rest;
    }
    Ok((values, words))
}

/// The value of the first word and the words behind it.
fn read_value<'a>(alloc: Global, kind: Kind, words: Words<'a>) -> Result<(Value, Words<'a>), Unread>
    ensures { (kinds : List grammar_kind.Kind) (rows : List grammar.KeyRow) → ReadsAs result
        (scan (kind ∷ kinds) rows (words_of words.entry.column words.entry.rest.now))
        (λ read. with_value read.0 (scan kinds rows (words_of read.1.column read.1.rest.now))) }
{
    let Some((word, rest)) = words.split_first() else {
        return Err(Unread::Missing);
    };
    match value_of(alloc, kind, word.bytes)? {
        Some(value) => Ok((value, rest)),
        None => Err(Unread::Misfit(word.column)),
    }
}
