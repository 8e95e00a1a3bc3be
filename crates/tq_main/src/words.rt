//! What is wrong with the words of a command line.
ghost use Rattle.std.specs.Prelude.{◌≡◌, is_some, is_none, not, map, string_bytes};
ghost use Rattle.tq_run.specs.Words.{device_word, is_device_word};

use thiserror::Error;

/// Why words are of no stated form.
#[derive(Clone, Copy, Debug, PartialEq, Eq, Drop, Error)]
pub enum WordsFault {
    #[error("no words were given")]
    NoWords,
    #[error("the first word must be run")]
    UnknownVerb,
    #[error("a device word must follow run")]
    NoDevice,
    #[error("run takes one device word")]
    MoreDevices,
    #[error("a device word may not be empty")]
    EmptyDevice,
    #[error("a device word may not begin with '-'")]
    DashedDevice,
    #[error("a word is not UTF-8 text")]
    NoText,
}

// Why a word may not name a device.
fn device_fault(word: &str) -> Option<WordsFault>
    ensures { is_some result ≡ not (is_device_word word.now) }
{
    let bytes = word.as_bytes();
    if bytes.is_empty() {
        Some(WordsFault::EmptyDevice)
    } else if bytes[0] == b'-' {
        Some(WordsFault::DashedDevice)
    } else {
        None
    }
}

/// What is wrong with these words, exactly where `run` answers Usage.
pub fn words_fault(words: &[String]) -> Option<WordsFault>
    ensures { is_some result ≡ is_none (device_word (map string_bytes words.now)) }
{
    match words {
        [] => Some(WordsFault::NoWords),
        [verb, path] => {
            if verb.as_str() == "run" {
                device_fault(path.as_str())
            } else {
                Some(WordsFault::UnknownVerb)
            }
        }
        [verb, ..] if verb.as_str() != "run" => Some(WordsFault::UnknownVerb),
        [_] => Some(WordsFault::NoDevice),
        _ => Some(WordsFault::MoreDevices),
    }
}
