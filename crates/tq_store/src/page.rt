//! The first page of a space: its creation.

ghost use Rattle.std.specs.Prelude.{◌≡◌, ◌<◌, ◌≤◌, slice_index, ℕ, ◌++◌, ◌==◌, ◌&&◌, List, [], true, length, codes, IsTrue, if◌then◌else◌, Some, None};
ghost use Rattle.std.specs.Str.{bytes_eq};
ghost use Rattle.tq_model.specs.SpaceForm as form;
ghost use Rattle.tq_model.specs.SpaceForm.{raw_space};
ghost use Rattle.tq_store.specs.Page.{IsZeroPadded, numbers_spelt, page_spelt, are_limits, is_error, is_creation, shape_in};

use crate::bytes::{eight_bytes, put_behind, two_bytes, u16_at, u64_at, zeros};
use tq_model::{
    MOST_MEMORY, MOST_MESSAGES, MOST_QUEUES, MOST_TRANSACTIONS, Shape, name_in, overhead_pages,
};
use tq_types::Name;

/// The bytes of a page.
pub(crate) const PAGE: usize = 1024;

const MARK: [u8; 8] = *b"TQSPACE1";

const VERSION: u16 = 1;

/// The first page of a new space of this shape: as it is spelt, and all behind it zero.
pub(crate) fn encode_page(shape: &Shape) -> [u8; PAGE]
    ensures spelt { IsZeroPadded (page_spelt shape.now) result }
    ensures error { is_error shape.now.error ≡ true }
    // `decode_page` gives the shape back
    ensures back { IsTrue (is_creation shape.now) → shape_in shape.now.pages result ≡ Some shape.now }
{
    let mut page = zeros::<PAGE>();
    spell_numbers(&mut page, shape);
    spell_error(&mut page, &shape.error);
    page
}

fn spell_numbers(page: &mut [u8], shape: &Shape)
    requires { 24 ≤ length page.old }
    ensures { IsZeroPadded [] page.old → IsZeroPadded (numbers_spelt shape.now) page.new }
{
    put_behind(page, 0, &MARK);
    put_behind(page, 8, &two_bytes(VERSION));
    put_behind(page, 10, &two_bytes(shape.queues));
    put_behind(page, 12, &two_bytes(shape.messages));
    put_behind(page, 14, &two_bytes(shape.transactions));
    put_behind(page, 16, &eight_bytes(shape.memory));
}

fn spell_error(page: &mut [u8], error: &Option<Name>)
    requires { 40 ≤ length page.old }
    ensures spelt { (start : List ℕ) → length start ≡ 24 → IsZeroPadded start page.old → IsZeroPadded (start ++ form.error_spelt error.now) page.new }
    ensures error { is_error error.now ≡ true }
{
    if let Some(name) = error {
        let name = name.as_bytes();
        put_behind(page, 24, &[name.len() as u8]);
        put_behind(page, 25, name);
    }
}

/// The shape of the space with so many pages whose first page this is; `None` exactly where it is
/// the first page of none.
pub(crate) fn decode_page(page: &[u8], pages: u32) -> Option<Shape>
    requires { 1024 ≤ length page.now }
    ensures shape { result ≡ shape_in pages page.now }
    ensures size { slice_index page.now 24 < 256 }
{
    let size = usize::from(page[24]);
    if !is_marked(page) {
        return None;
    }
    let shape = Shape {
        pages,
        queues: u16_at(page, 10),
        messages: u16_at(page, 12),
        transactions: u16_at(page, 14),
        memory: u64_at(page, 16),
        error: error_in(page, size)?,
    };
    are_limits(&shape).then_some(shape)
}

/// Whether a page begins with the mark of a space and its form's version.
fn is_marked(page: &[u8]) -> bool
    requires { 1024 ≤ length page.now }
    ensures { result ≡ (bytes_eq (raw_space page.now).mark (codes "TQSPACE1") && (raw_space page.now).version == 1) }
{
    &page[..8] == MARK.as_slice() && u16_at(page, 8) == VERSION
}

/// The name of the error queue, which has so many bytes, if there is one; the outer `None` where it
/// is no name.
fn error_in(page: &[u8], size: usize) -> Option<Option<Name>>
    requires page { 1024 ≤ length page.now }
    requires size { size ≡ slice_index page.now 24 }
    requires small { size < 256 }
    ensures { result ≡ (if is_error (form.error_name (raw_space page.now)) then Some (form.error_name (raw_space page.now)) else None) }
{
    if size == 0 {
        return Some(None);
    }
    name_in(&page[25..25 + size]).map(Some)
}

/// Whether the numbers of a creation are within their limits.
fn are_limits(shape: &Shape) -> bool
    ensures { result ≡ are_limits shape.now }
{
    (1 <= shape.queues && shape.queues <= MOST_QUEUES)
        && (1 <= shape.messages && shape.messages <= MOST_MESSAGES)
        && (1 <= shape.transactions && shape.transactions <= MOST_TRANSACTIONS)
        && shape.memory <= MOST_MEMORY
        && overhead_pages(shape) < u64::from(shape.pages)
}
