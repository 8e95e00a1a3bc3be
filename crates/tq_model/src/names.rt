ghost use Rattle.std.specs.Prelude.{◌≡◌, if◌then◌else◌, Some, None};
ghost use Rattle.tq_model.specs.Names.{is_name};

use tq_types::Name;

/// The name with this text, where it is one.
pub fn name_in(text: &[u8]) -> Option<Name>
    ensures { result ≡ (if is_name text.now then Some text.now else None) }
{
    Name::new(text).ok()
}
