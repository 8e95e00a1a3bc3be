//! Whole pages, made in memory.

ghost use Rattle.std.specs.Prelude.{◌≡◌, ◌<◌, ◌≤◌, ◌+◌, ◌-◌, ◌*◌, ◌^◌, ℕ, length};
ghost use Rattle.tq_field.specs.Places.{run_at, with_number};
ghost use Rattle.tq_host.specs.Calls.{HasBytesAt};
ghost use Rattle.tq_pages.specs.Store.{chain_pages};
ghost use Rattle.tq_pages.specs.Content.{payload_bytes, page_form, run_number};

use tq_field::{put_u16, put_u32};

/// The bytes of a page.
pub(crate) const PAGE: usize = 1024;

/// The bytes of a page that are for its chain.
pub(crate) const PAYLOAD: usize = 1016;

/// Writes the number into the 4 bytes from this place on, which has to have them.
fn set_number(bytes: &mut [u8], at: usize, n: u32)
    requires { at + 4 ≤ length bytes.old }
    ensures { bytes.new ≡ with_number at 4 n bytes.old }
{
    let _fits = put_u32(bytes, at, n);
}

/// Writes the number into the 2 bytes from this place on, which has to have them.
fn set_short(bytes: &mut [u8], at: usize, n: u16)
    requires { at + 2 ≤ length bytes.old }
    ensures { bytes.new ≡ with_number at 2 n bytes.old }
{
    let _fits = put_u16(bytes, at, n);
}

/// Makes this a page with that one behind it.
fn fill_page(page: &mut [u8], next: u32, payload: &[u8])
    requires page { length page.old ≡ 1024 }
    requires payload { length payload.now ≤ 1016 }
    ensures { page.new ≡ page_form next payload.now }
{
    page.copy_from_slice(&[0; PAGE]);
    set_number(page, 0, next);
    set_short(page, 4, payload.len() as u16);
    page[8..8 + payload.len()].copy_from_slice(payload);
}

/// The number behind the k-th of so many pages whose numbers follow that of the first.
fn number_after(first: u32, behind: u32, count: usize, k: usize) -> u32
    requires within { k < count }
    requires few { first + count < 2 ^ 32 }
    ensures { result ≡ run_number first behind count k }
{
    if k + 1 < count {
        first + (k as u32 + 1)
    } else {
        behind
    }
}

/// Makes these whole pages, whose numbers follow that of the first, with these bytes; behind the
/// last one stands that page.
pub(crate) fn fill_run(pages: &mut [u8], first: u32, behind: u32, bytes: &[u8])
    requires pages { length pages.old ≡ 1024 * chain_pages (length bytes.now) }
    requires first { first + chain_pages (length bytes.now) < 2 ^ 32 }
    ensures size { length pages.new ≡ length pages.old }
    ensures pages { (k : ℕ) → k < chain_pages (length bytes.now)
        → HasBytesAt (1024 * k) (page_form (run_number first behind (chain_pages (length bytes.now)) k) (run_at (payload_bytes * k) payload_bytes bytes.now)) pages.new }
{
    let count = pages.len() / PAGE;
    for k in 0..count {
        let next = number_after(first, behind, count, k);
        let at = PAYLOAD * k;
        let used = (bytes.len() - at).min(PAYLOAD);
        let page = PAGE * k;
        fill_page(&mut pages[page..page + PAGE], next, &bytes[at..at + used]);
    }
}
