ghost use Rattle.std.specs.Prelude.{◌≡◌};
ghost use Rattle.std.specs.Char.{is_ascii_digit};
ghost use Rattle.std.specs.List.{list_all};
ghost use Rattle.tq_model.specs.Grammar.{is_numeral, number_between};
ghost use Rattle.tq_script.specs.Numerals.{number_of};

use tq_model::Value;

/// The most digits of a number.
const MOST_DIGITS: usize = 20;

/// The number from `low` to `high` that the word writes; None where it writes none.
pub fn number_between(low: u64, high: u64, word: &[u8]) -> Option<Value>
    ensures { result ≡ number_between low high word.now }
{
    let number = number_of(word)?;
    if low <= number && number <= high {
        Some(Value::Number(number))
    } else {
        None
    }
}

/// The number that a numeral writes, where 64 bits hold it.
fn number_of(word: &[u8]) -> Option<u64>
    ensures { result ≡ number_of word.now }
{
    if !is_numeral(word) {
        return None;
    }
    let Ok(text) = std::str::from_utf8(word) else {
        return None;
    };
    text.parse().ok()
}

/// Whether the word is one to twenty decimal digits.
fn is_numeral(word: &[u8]) -> bool
    ensures { result ≡ is_numeral word.now }
{
    !word.is_empty() && word.len() <= MOST_DIGITS && all_digits(word)
}

fn all_digits(word: &[u8]) -> bool
    ensures { result ≡ list_all is_ascii_digit word.now }
{
    word.iter().all(|byte| byte.is_ascii_digit())
}
