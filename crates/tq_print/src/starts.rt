ghost use Rattle.std.specs.Prelude.{◌≡◌, ◌++◌, OnOk};
ghost use Rattle.tq_model.specs.Text.{identity_text, ready_text};

use crate::named::push_named;
use std::alloc::AllocError;
use tq_model::{Identity, Readiness};

/// Appends the site's number and epoch, each a hyphen while device 0 is blank.
pub fn push_identity(text: &mut Vec<u8>, identity: Option<Identity>) -> Result<(), AllocError>
    ensures { OnOk result (text.new.items ≡ text.old.items ++ identity_text identity) }
{
    match identity {
        None => text.extend_from_slice(b"site=- epoch=-")?,
        Some(identity) => {
            push_named(text, b"site=", u64::from(identity.site))?;
            push_named(text, b" epoch=", u64::from(identity.epoch))?;
        }
    }
    Ok(())
}

/// Appends what a boot finds.
pub fn push_readiness(text: &mut Vec<u8>, readiness: &Readiness) -> Result<(), AllocError>
    ensures { OnOk result (text.new.items ≡ text.old.items ++ ready_text readiness.now) }
{
    text.extend_from_slice(b"READY ")?;
    push_identity(text, readiness.identity)?;
    push_named(text, b" spaces=", u64::from(readiness.spaces))?;
    push_named(text, b" indoubt=", u64::from(readiness.in_doubt))?;
    Ok(())
}
