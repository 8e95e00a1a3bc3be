ghost use Rattle.std.specs.Prelude.{◌≡◌, ◌++◌, OnOk, codes};
ghost use Rattle.tq_model.specs.Text.{field_text, capacity_text, device_text};

use crate::listings::push_listing;
use crate::named::push_named;
use std::alloc::AllocError;
use tq_model::{Capacity, DeviceAnswer, Field};

/// Appends a field's name.
pub fn push_field(text: &mut Vec<u8>, field: Field) -> Result<(), AllocError>
    ensures { OnOk result (text.new.items ≡ text.old.items ++ field_text field) }
{
    match field {
        Field::Clusters => text.extend_from_slice(b"clusters")?,
        Field::Site => text.extend_from_slice(b"site")?,
        Field::Pages => text.extend_from_slice(b"pages")?,
        Field::Queues => text.extend_from_slice(b"queues")?,
        Field::Transactions => text.extend_from_slice(b"trans")?,
        Field::Messages => text.extend_from_slice(b"msgs")?,
        Field::Memory => text.extend_from_slice(b"memory")?,
    }
    Ok(())
}

/// Appends the field that is out of its limit.
pub fn push_range(text: &mut Vec<u8>, field: Field) -> Result<(), AllocError>
    ensures { OnOk result (text.new.items ≡ text.old.items ++ codes "RANGE field=" ++ field_text field) }
{
    text.extend_from_slice(b"RANGE field=")?;
    push_field(text, field)?;
    Ok(())
}

/// Appends the clusters of a device and those of them that are free.
pub fn push_capacity(text: &mut Vec<u8>, capacity: Capacity) -> Result<(), AllocError>
    ensures { OnOk result (text.new.items ≡ text.old.items ++ capacity_text capacity) }
{
    push_named(text, b"OK clusters=", u64::from(capacity.clusters))?;
    push_named(text, b" free=", u64::from(capacity.free))?;
    Ok(())
}

/// Appends what a device answers.
pub fn push_device(text: &mut Vec<u8>, answer: &DeviceAnswer) -> Result<(), AllocError>
    ensures { OnOk result (text.new.items ≡ text.old.items ++ device_text answer.now) }
{
    match answer {
        DeviceAnswer::Created(capacity) => push_capacity(text, *capacity)?,
        DeviceAnswer::Listed(listing) => push_listing(text, listing)?,
        DeviceAnswer::NoDevice => text.extend_from_slice(b"NODEVICE")?,
        DeviceAnswer::NotCreated => text.extend_from_slice(b"NOTCREATED")?,
        DeviceAnswer::Exists => text.extend_from_slice(b"EXISTS")?,
        DeviceAnswer::NoSite => text.extend_from_slice(b"NOSITE")?,
        DeviceAnswer::NotEmpty(spaces) => {
            push_named(text, b"NOTEMPTY spaces=", u64::from(*spaces))?;
        }
        DeviceAnswer::SiteInUse(devices) => {
            push_named(text, b"SITEINUSE devices=", u64::from(*devices))?;
        }
        DeviceAnswer::Range(field) => push_range(text, *field)?,
    }
    Ok(())
}
