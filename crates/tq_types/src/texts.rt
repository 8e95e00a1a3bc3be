//! Runs of bytes that stand in a text as themselves.

ghost use Rattle.std.specs.Prelude.{◌≡◌};
ghost use Rattle.std.specs.List.{position, position_or_len};
ghost use Rattle.tq_types.specs.Text.{needs_escape};

/// Whether the byte cannot stand in a text as itself.
fn needs_escape(byte: u8) -> bool
    ensures { result ≡ needs_escape byte }
{
    byte == b'"' || byte == b'\\' || !(b' '..=b'~').contains(&byte)
}

/// The first byte that cannot stand in a text as itself.
fn first_escaped(bytes: &[u8]) -> Option<usize>
    ensures { result ≡ position needs_escape bytes.now }
{
    bytes.iter().position(|byte| needs_escape(*byte))
}

/// How many bytes stand in a text as themselves before the first that cannot.
pub fn plain_run(bytes: &[u8]) -> usize
    ensures { result ≡ position_or_len needs_escape bytes.now }
{
    match first_escaped(bytes) {
        Some(at) => at,
        None => bytes.len(),
    }
}
