//! A blank device is made one of a site.

ghost use Rattle.std.specs.Prelude.{◌≡◌, ◌<◌, ◌≤◌, List, ℕ, length, OnOk};
ghost use Rattle.tq_host.specs.View.{IsSettled};
ghost use Rattle.tq_host.specs.Calls.{HasCause};
ghost use Rattle.tq_host.specs.Within.{KeepsRest, Within};
ghost use Rattle.tq_model.specs.Site.{least_clusters, most_clusters};
ghost use Rattle.tq_devtab.specs.Device.{IsBlank, HasPart, HasNoJournal, HasFirstAreas, IsBlankOr, IsAnyStep, new_part};
ghost use Rattle.tq_devtab.specs.Made.{IsMadeTo, IsPaged, IsLaidOut};

use crate::pages::{base_start, header_start, journal_start, padded, page_start};
use crate::resizing::resize;
use tq_host::{Failed, Host};
use tq_model::HEADER_BYTES;

/// Makes a blank device one of this site, at least 1, with so many clusters, 5 to 8,192, and no
/// space; device 0 has a site journal of epoch 1 and no decision, and the areas of one are zero on
/// the others. Both selectors choose area A. A stop inside leaves a blank device or the new one.
pub fn create<H: Host>(host: &mut H, dev: u8, site: u32, clusters: u32) -> Result<(), Failed>
    requires dev { dev < 8 }
    requires site { 1 ≤ site }
    requires least { least_clusters ≤ clusters }
    requires most { clusters ≤ most_clusters }
    ensures done { OnOk result (H.tells.reads → HasPart dev (new_part dev site clusters) ((H.view host.new).reads dev)) }
    ensures bare { OnOk result (H.tells.reads → 1 ≤ dev → HasNoJournal ((H.view host.new).reads dev)) }
    ensures first { OnOk result (H.tells.reads → HasFirstAreas ((H.view host.new).reads dev)) }
    ensures settled { OnOk result (IsSettled dev (H.view host.new)) }
    ensures stop { ((c : List ℕ) → (H.view host.old).may_leave dev c → IsBlank c)
        → Within dev IsAnyStep (IsBlankOr dev (new_part dev site clusters)) (H.view host.old) (H.view host.new) }
    ensures rest { KeepsRest dev (H.view host.old) (H.view host.new) }
    ensures cause { HasCause (H.view host.old).faults (H.view host.new).faults result }
{
    resize(host, dev, HEADER_BYTES - 1)?;
    lay_out(host, dev, site, clusters)?;
    resize(host, dev, HEADER_BYTES)
}

/// Writes all of a new device but its last byte.
fn lay_out<H: Host>(host: &mut H, dev: u8, site: u32, clusters: u32) -> Result<(), Failed>
    requires dev { dev < 8 }
    requires site { 1 ≤ site }
    requires least { least_clusters ≤ clusters }
    requires most { clusters ≤ most_clusters }
    requires size { H.tells.reads → length ((H.view host.old).reads dev) ≡ 131071 }

    ensures done { OnOk result (H.tells.reads → IsLaidOut dev site clusters ((H.view host.new).reads dev)) }
    ensures settled { OnOk result (IsSettled dev (H.view host.new)) }
    ensures stop { ((c : List ℕ) → (H.view host.old).may_leave dev c → IsBlank c)
        → Within dev IsAnyStep IsBlank (H.view host.old) (H.view host.new) }
    ensures rest { KeepsRest dev (H.view host.old) (H.view host.new) }
    ensures cause { HasCause (H.view host.old).faults (H.view host.new).faults result }
{
    let header = header_start(dev, site, clusters);
    let table = base_start(b"TQTB", 1);
    let journal = journal_start(dev);
    write_pages(host, dev, &header, &table, &journal)?;
    host.sync(dev)
}

/// Writes every page of a blank device.
fn write_pages<H: Host>(
    host: &mut H,
    dev: u8,
    header: &[u8],
    table: &[u8],
    journal: &[u8],
) -> Result<(), Failed>
    requires dev { dev < 8 }
    requires header { length header.now ≤ 1024 }
    requires table { length table.now ≤ 1024 }
    requires journal { length journal.now ≤ 1024 }
    requires size { H.tells.reads → length ((H.view host.old).reads dev) ≡ 131071 }

    ensures done { OnOk result (H.tells.reads → IsMadeTo header.now table.now journal.now 131071 ((H.view host.new).reads dev)) }
    ensures size { OnOk result (H.tells.reads → length ((H.view host.new).reads dev) ≡ 131071) }
    ensures stop { ((c : List ℕ) → (H.view host.old).may_leave dev c → IsBlank c)
        → Within dev IsAnyStep IsBlank (H.view host.old) (H.view host.new) }
    ensures rest { KeepsRest dev (H.view host.old) (H.view host.new) }
    ensures cause { HasCause (H.view host.old).faults (H.view host.new).faults result }
{
    for number in 0..128u64 {
        write_page(
            host,
            dev,
            number,
            page_start(number, header, table, journal),
        )?;
    }
    Ok(())
}

/// Writes the page with this number, as far as a blank device goes.
fn write_page<H: Host>(host: &mut H, dev: u8, number: u64, start: &[u8]) -> Result<(), Failed>
    requires dev { dev < 8 }
    requires number { number < 128 }
    requires start { length start.now ≤ 1024 }
    requires size { H.tells.reads → length ((H.view host.old).reads dev) ≡ 131071 }

    ensures done { OnOk result (H.tells.reads → IsPaged number start.now ((H.view host.old).reads dev) ((H.view host.new).reads dev)) }
    ensures stop { ((c : List ℕ) → (H.view host.old).may_leave dev c → IsBlank c)
        → Within dev IsAnyStep IsBlank (H.view host.old) (H.view host.new) }
    ensures rest { KeepsRest dev (H.view host.old) (H.view host.new) }
    ensures cause { HasCause (H.view host.old).faults (H.view host.new).faults result }
{
    let page = padded::<1024>(start);
    let at = 1024 * number;
    let count = (HEADER_BYTES - 1 - at).min(1024);
    host.write_at(dev, at, &page[..count as usize])
}
