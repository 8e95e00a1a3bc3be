//! The words of a line.

ghost use Rattle.std.specs.Prelude.{◌≡◌, ◌+◌, ◌<◌, ◌≤◌, ◌∷◌, ◌==◌, [], length, drop, not, MatchOption, IfSome};
ghost use Rattle.std.specs.List.{position};
ghost use Rattle.tq_model.specs.Grammar.{longest_line, ends_word, place_after, word_length, Plain};
ghost use Rattle.tq_script.specs.Cutting.{word_at, words_of};
ghost use Rattle.tq_script.specs.Places.{place_of};

use crate::bytes::skip_to_either;

/// The most bytes of a line, its end left out.
pub const LONGEST_LINE: usize = 262_144;

/// A word of a line.
#[derive(Clone, Copy)]
pub struct Word<'a> {
    /// Of its first byte, from 1.
    pub column: u64,
    pub bytes: &'a [u8],
}

/// Where in a word a byte stands.
#[derive(Clone, Copy)]
enum Place {
    /// Outside quotes.
    Plain,
    Quoted,
    /// Inside quotes, behind a backslash.
    Escaped,
}

fn ends_word(place: Place, byte: u8) -> bool
    ensures { result ≡ ends_word (place_of place) byte }
{
    match place {
        Place::Plain => byte == b' ',
        Place::Quoted | Place::Escaped => false,
    }
}

fn place_after(place: Place, byte: u8) -> Place
    ensures { place_of result ≡ place_after (place_of place) byte }
{
    match (place, byte) {
        (Place::Plain, b'"') => Place::Quoted,
        (Place::Plain, _) => Place::Plain,
        (Place::Quoted, b'\\') => Place::Escaped,
        (Place::Quoted, b'"') => Place::Plain,
        (Place::Quoted | Place::Escaped, _) => Place::Quoted,
    }
}

/// How many of the bytes belong to the word that begins with them.
fn word_length(bytes: &[u8]) -> usize
    ensures cut { result ≡ word_length Plain bytes.now }
    ensures within { result ≤ length bytes.now }
{
    let mut place = Place::Plain;
    let mut rest = skip_run(place, bytes);
    while let [byte, behind @ ..] = rest {
        if ends_word(place, *byte) {
            break;
        }
        place = place_after(place, *byte);
        rest = skip_run(place, behind);
    }
    bytes.len() - rest.len()
}

/// What stands behind the bytes that neither end the word nor change the place.
#[tactic(auto, using(crate::proofs::Words::behind_plain, crate::proofs::Words::behind_quoted))]
fn skip_run(place: Place, bytes: &[u8]) -> &[u8]
    ensures word { word_length (place_of place) bytes.now + length result.now ≡ length bytes.now + word_length (place_of place) result.now }
    ensures shorter { length result.now ≤ length bytes.now }
{
    match place {
        Place::Plain => skip_to_either(b' ', b'"', bytes),
        Place::Quoted => skip_to_either(b'"', b'\\', bytes),
        Place::Escaped => bytes,
    }
}

/// Where the first byte stands that is no space.
fn word_start(bytes: &[u8]) -> Option<usize>
    ensures { result ≡ position (λ b. not (b == 32)) bytes.now }
{
    bytes.iter().position(|byte| *byte != b' ')
}

/// What is left of a line.
#[derive(Clone, Copy)]
pub struct Words<'a> {
    pub rest: &'a [u8],
    /// Of the first byte that is left, from 1.
    pub column: u64,
    ghost bounded: { column + length rest.now ≤ longest_line + 1 },
}

impl<'a> Words<'a> {
    /// The words of a line.
    pub fn of_line(line: &'a [u8]) -> Words<'a>
        requires { length line.now ≤ longest_line }
        ensures rest { result.rest.now ≡ line.now }
        ensures column { result.column ≡ 1 }
    {
        Words {
            rest: line,
            column: 1,
        }
    }

    /// The first word and those behind it.
    pub fn split_first(self) -> Option<(Word<'a>, Words<'a>)>
        ensures words { MatchOption result (words_of self.entry.column self.entry.rest.now ≡ [])
            (λ cut. words_of self.entry.column self.entry.rest.now
            ≡ word_at cut.0.column cut.0.bytes.now ∷ words_of cut.1.column cut.1.rest.now) }
        ensures shorter { IfSome result (λ cut. length cut.1.rest.now < length self.entry.rest.now) }
    {
        let words = self.skip(word_start(self.rest)?);
        let length = word_length(words.rest);
        let word = Word {
            column: words.column,
            bytes: &words.rest[..length],
        };
        Some((word, words.skip(length)))
    }

    /// What is left behind so many bytes.
    fn skip(self, count: usize) -> Words<'a>
        requires { count ≤ length self.rest.now }
        ensures rest { result.rest.now ≡ drop count self.entry.rest.now }
        ensures column { result.column ≡ self.entry.column + count }
    {
        Words {
            rest: &self.rest[count..],
            column: self.column + count as u64,
        }
    }
}
