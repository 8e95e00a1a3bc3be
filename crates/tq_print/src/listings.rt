ghost use Rattle.std.specs.Prelude.{◌≡◌, ◌++◌, OnOk, codes, decimal, length};
ghost use Rattle.std.specs.List.{flat_map};
ghost use Rattle.tq_model.specs.Text.{named, capacity_text, extents_text, space_line_text};

use crate::devices::push_capacity;
use crate::named::{push_named, push_number};
use std::alloc::AllocError;
use tq_model::{Extent, Listing, SpaceLine};

/// Appends an extent: its first cluster, and how many.
pub fn push_extent(text: &mut Vec<u8>, extent: Extent) -> Result<(), AllocError>
    ensures { OnOk result (text.new.items ≡ text.old.items ++ decimal extent.first ++ named (codes "+") extent.count) }
{
    push_number(text, u64::from(extent.first))?;
    push_named(text, b"+", u64::from(extent.count))?;
    Ok(())
}

/// Appends an extent that stands behind another.
pub fn push_next_extent(text: &mut Vec<u8>, extent: Extent) -> Result<(), AllocError>
    ensures { OnOk result (text.new.items ≡ text.old.items ++ codes "," ++ decimal extent.first ++ named (codes "+") extent.count) }
{
    text.extend_from_slice(b",")?;
    push_extent(text, extent)?;
    Ok(())
}

/// Appends extents with commas between them.
pub fn push_extents(text: &mut Vec<u8>, extents: &[Extent]) -> Result<(), AllocError>
    ensures { OnOk result (text.new.items ≡ text.old.items ++ extents_text extents.now) }
{
    let Some((first, more)) = extents.split_first() else {
        return Ok(());
    };
    push_extent(text, *first)?;
    for extent in more {
        push_next_extent(text, *extent)?;
    }
    Ok(())
}

/// Appends the line of a space in the listing of its device.
pub fn push_space_line(text: &mut Vec<u8>, line: &SpaceLine) -> Result<(), AllocError>
    ensures { OnOk result (text.new.items ≡ text.old.items ++ space_line_text line.now) }
{
    text.extend_from_slice(b"\n  ")?;
    text.extend_from_slice(line.name.as_bytes())?;
    push_named(text, b" number=", u64::from(line.number))?;
    push_named(text, b" pages=", u64::from(line.pages))?;
    text.extend_from_slice(b" extents=")?;
    push_extents(text, line.extents.as_slice())?;
    Ok(())
}

/// Appends the lines of spaces.
pub fn push_space_lines(text: &mut Vec<u8>, lines: &[SpaceLine]) -> Result<(), AllocError>
    ensures { OnOk result (text.new.items ≡ text.old.items ++ flat_map space_line_text lines.now) }
{
    for line in lines {
        push_space_line(text, line)?;
    }
    Ok(())
}

/// Appends what is said of a device: its clusters, and its spaces with a line each.
pub fn push_listing(text: &mut Vec<u8>, listing: &Listing) -> Result<(), AllocError>
    ensures { OnOk result (text.new.items ≡ text.old.items ++ capacity_text listing.now.capacity ++ named (codes " spaces=")
        (length listing.now.spaces) ++ flat_map space_line_text listing.now.spaces) }
{
    let lines = listing.spaces.as_slice();
    push_capacity(text, listing.capacity)?;
    push_named(text, b" spaces=", lines.len() as u64)?;
    push_space_lines(text, lines)?;
    Ok(())
}
