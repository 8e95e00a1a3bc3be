ghost use Rattle.std.specs.Prelude.{◌≡◌, [], map, IfOk, Some};
ghost use Rattle.std.specs.List.{list_any};
ghost use Rattle.std.specs.Option.{option_map};
ghost use Rattle.tq_model.specs.Grammar.{Spelt, given_of as given_of_row, key_among, keyed_value, rows_without, scan_keyed};
ghost use Rattle.tq_script.specs.Cutting.{words_of};
ghost use Rattle.tq_script.specs.Reads.{ReadsAs};
ghost use Rattle.tq_script.specs.Rows.{given_of, is_required, key_row_of};

use crate::bytes::position_of;
use crate::cutting::Words;
use crate::given::{Given, is_same_key};
use crate::table::{KeyRow, key_word};
use crate::unread::Unread;
use crate::values::value_of;
use std::alloc::{AllocError, Global};
use tq_model::Key;

/// What the words give, each of them a key of the rows, at most once, and its value.
pub fn read_keyed(alloc: Global, rows: &[KeyRow], words: Words<'_>) -> Result<Vec<Given>, Unread>
    ensures { ReadsAs result
        (scan_keyed (map key_row_of rows.now) (words_of words.entry.column words.entry.rest.now))
        (λ given. Spelt [] (map given_of given.items)) }
{
    let mut left = Vec::from_slice(alloc, rows)?;
    let mut given = Vec::new(alloc);
    let mut words = words;
    while let Some((word, rest)) = words.split_first() {
        let Some(next) = keyed_value(alloc, &left, word.bytes)? else {
            return Err(Unread::Misfit(word.column));
        };
        remove_key(&mut left, next.key);
        given.push(next)?;
        words = rest;
    }
    if is_one_required(&left) {
        return Err(Unread::Missing);
    }
    Ok(given)
}

fn is_one_required(rows: &[KeyRow]) -> bool
    ensures { result ≡ list_any is_required rows.now }
{
    rows.iter().any(|row| row.required)
}

fn remove_key(rows: &mut Vec<KeyRow>, key: Key)
    ensures { map key_row_of rows.new.items ≡ rows_without key (map key_row_of rows.old.items) }
{
    rows.retain(|row| !is_same_key(key, row.key));
}

/// What a keyed word gives: a key of the rows, an equals sign and a value of the key's kind.
fn keyed_value(alloc: Global, rows: &[KeyRow], word: &[u8]) -> Result<Option<Given>, AllocError>
    ensures { IfOk result (λ given. option_map given_of given ≡ keyed_value (map key_row_of rows.now) word.now) }
{
    let Some(equals) = position_of(b'=', word) else {
        return Ok(None);
    };
    match key_among(rows, &word[..equals]) {
        Some(row) => given_with(alloc, row, &word[equals + 1..]),
        None => Ok(None),
    }
}

/// What is given by the key of that row and the text behind its equals sign.
fn given_with(alloc: Global, row: KeyRow, text: &[u8]) -> Result<Option<Given>, AllocError>
    ensures { IfOk result (λ given. option_map given_of given ≡ given_of_row (Some (key_row_of row)) text.now) }
{
    match value_of(alloc, row.kind, text)? {
        Some(value) => Ok(Some(Given {
            key: row.key,
            value,
        })),
        None => Ok(None),
    }
}

fn key_among(rows: &[KeyRow], name: &[u8]) -> Option<KeyRow>
    ensures { option_map key_row_of result ≡ key_among (map key_row_of rows.now) name.now }
{
    for row in rows {
        if name == key_word(row.key) {
            return Some(*row);
        }
    }
    None
}
