ghost use Rattle.std.specs.Prelude.{◌≡◌, map, string_bytes};
ghost use Rattle.std.specs.Option.{option_copied};
ghost use Rattle.tq_run.specs.Words.{device_word, is_device_word};

// Whether a word may name a device.
fn is_name_of_device(word: &str) -> bool
    ensures { result ≡ is_device_word word.now }
{
    let bytes = word.as_bytes();
    !bytes.is_empty() && bytes[0] != b'-'
}

// The device word, where the words are of the form `run DEVICE`.
pub fn device_path(words: &[String]) -> Option<&str>
    ensures { option_copied result ≡ device_word (map string_bytes words.now) }
{
    match words {
        [verb, path] => {
            if verb.as_str() == "run" && is_name_of_device(path.as_str()) {
                Some(path.as_str())
            } else {
                None
            }
        }
        _ => None,
    }
}
