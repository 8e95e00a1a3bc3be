//! Chains of pages over a host in memory, on the pages of a device's header.

ghost use Rattle.std.specs.Prelude.{true, ◌≡◌, ◌+◌, ◌≤◌, ℕ, length, IfOk, OnOk};
ghost use Rattle.tq_host.specs.Memory.{mem_view_of};
ghost use Rattle.tq_extent.specs.Bytes.{reaches};
ghost use Rattle.tq_model.specs.Site.{header_clusters, numbers_from};
ghost use Rattle.tq_pages.specs.Store.{size_of};

use std::alloc::{AllocError, Global};
use std::test::Fail;
use tq_extent::PageMap;
use tq_host::MemHost;
use tq_pages::{ChainError, PageStore};

// Writes these bytes from this place on.
fn put(image: &mut [u8], at: usize, bytes: &[u8])
    requires { at + length bytes.now ≤ length image.old }
    ensures { length image.new ≡ length image.old }
{
    image[at..at + bytes.len()].copy_from_slice(bytes);
}

// A device of zeros, but for the number of the next page and the number of bytes on the pages 1 to 3.
fn device(alloc: Global, pages: &[[u8; 6]; 3]) -> Result<MemHost, Fail>
    ensures { IfOk result (λ host. reaches (numbers_from 0 header_clusters) ((mem_view_of host).reads 1) ≡ true) }
{
    let mut image = vec![in alloc; 0u8; 131_072]?;
    put(&mut image, 1024, &pages[0]);
    put(&mut image, 2048, &pages[1]);
    put(&mut image, 3072, &pages[2]);
    let mut host = MemHost::new(alloc, b"".as_slice(), 1)?;
    host.set_device(1, &image)?;
    Ok(host)
}

// A store of so many pages from page 1 on.
fn store_of(alloc: Global, pages: u32) -> Result<PageStore, AllocError>
    requires { pages ≤ 127 }
    ensures clusters { IfOk result (λ store. store.clusters ≡ numbers_from 0 header_clusters) }
    ensures dev { IfOk result (λ store. store.dev ≡ 1) }
{
    PageStore::new(alloc, 1, PageMap::header(), 1, pages)
}

// So many bytes, no two neighbours the same.
fn text(alloc: Global, size: usize) -> Result<Vec<u8>, AllocError> {
    let mut bytes = Vec::new(alloc);
    for at in 0..size {
        bytes.push((at % 251) as u8)?;
    }
    Ok(bytes)
}

// Writes a chain, where the store has room for it, and gives its first page.
fn written(store: &mut PageStore, host: &mut MemHost, bytes: &[u8]) -> Result<u32, Fail>
    requires dev { store.old.dev ≡ 1 }
    requires reach { reaches store.old.clusters ((mem_view_of host.old).reads 1) ≡ true }
    ensures dev { OnOk result (store.new.dev ≡ 1) }
    ensures reach { OnOk result (reaches store.new.clusters ((mem_view_of host.new).reads 1) ≡ true) }
    ensures chain { IfOk result (λ first. 1 ≤ size_of store.new first) }
    ensures others { OnOk result ((g : ℕ) → 1 ≤ size_of store.old g → 1 ≤ size_of store.new g) }
{
    let size = u32::try_from(bytes.len())
        .ok()
        .ok_or("no chain is so long")?;
    if size == 0 || (u64::from(size) + 1015) / 1016 > u64::from(store.free_count()) {
        return Err(Fail::from("there is no room"));
    }
    let first = store.take(size);
    store
        .put(host, first, bytes)
        .ok()
        .ok_or("the device writes")?;
    Ok(first)
}

// Makes a chain's pages free, and leaves another one.
fn given_up(store: &mut PageStore, first: u32, other: u32) -> Result<(), Fail>
    requires first { 1 ≤ size_of store.old first }
    requires other { 1 ≤ size_of store.old other }
    ensures other { OnOk result (1 ≤ size_of store.new other) }
    ensures dev { store.new.dev ≡ store.old.dev }
    ensures clusters { store.new.clusters ≡ store.old.clusters }
{
    if first == other {
        return Err(Fail::from("two chains begin at one page"));
    }
    store.release(first);
    Ok(())
}

// Writes a chain of so many bytes on a store of so many pages, reads it and gives it up: how many pages are free between, and at the
// end.
fn round(alloc: Global, pages: u32, size: usize) -> Result<(u32, u32), Fail>
    requires { pages ≤ 127 }
{
    let mut host = device(alloc, &[NONE; 3])?;
    let mut store = store_of(alloc, pages)?;
    let bytes = text(alloc, size)?;
    let first = written(&mut store, &mut host, bytes.as_slice())?;
    let left = store.free_count();
    let read = store
        .read(alloc, &mut host, first)
        .ok()
        .ok_or("the device reads")?;
    if read.as_slice() != bytes.as_slice() {
        return Err(Fail::from("the chain has other bytes"));
    }
    store.release(first);
    Ok((left, store.free_count()))
}

#[test]
fn chains_of_1_to_65_pages(rt: HostRuntime) -> Result<(), Fail> {
    let rows: [(u32, usize, u32); 6] = [
        (65, 1, 64),
        (65, 1016, 64),
        (65, 1017, 63),
        (65, 2033, 62),
        (65, 65_792, 0),
        (1, 1016, 0),
    ];
    for (pages, size, left) in rows {
        assert!(rt; round(rt.alloc(), pages, size)? == (left, pages));
    }
    Ok(())
}

// A full store, whose first chain is given up: its page is the next one's.
#[test]
fn a_page_is_used_again(rt: HostRuntime) -> Result<(), Fail> {
    let alloc = rt.alloc();
    let mut host = device(alloc, &[NONE; 3])?;
    let mut store = store_of(alloc, 3)?;
    let short = written(&mut store, &mut host, b"short".as_slice())?;
    let bytes = text(alloc, 1500)?;
    let long = written(&mut store, &mut host, bytes.as_slice())?;
    assert!(rt; store.free_count() == 0);
    given_up(&mut store, short, long)?;
    assert!(rt; store.free_count() == 1);
    let again = written(&mut store, &mut host, b"again".as_slice())?;
    assert!(rt; again == short);
    let read = store
        .read(alloc, &mut host, long)
        .ok()
        .ok_or("the device reads")?;
    assert!(rt; read.as_slice() == bytes.as_slice());
    Ok(())
}

const NONE: [u8; 6] = [0; 6];

// What a page says that is full, and has the page 1, 2 or 3 behind it.
const TO_1: [u8; 6] = [0, 0, 0, 1, 3, 248];

const TO_2: [u8; 6] = [0, 0, 0, 2, 3, 248];

const TO_3: [u8; 6] = [0, 0, 0, 3, 3, 248];

// What a last page of 5 bytes says.
const LAST: [u8; 6] = [0, 0, 0, 0, 0, 5];

// What a store of three pages answers to the chain that begins at this page, and how many pages are free then.
fn adopted(
    alloc: Global,
    pages: &[[u8; 6]; 3],
    first: u32,
) -> Result<(Result<u32, ChainError>, u32), Fail> {
    let mut host = device(alloc, pages)?;
    let mut store = store_of(alloc, 3)?;
    let found = store.adopt(&mut host, first);
    Ok((found, store.free_count()))
}

#[test]
fn stored_chains(rt: HostRuntime) -> Result<(), Fail> {
    let rows: [([[u8; 6]; 3], u32, u32, u32); 4] = [
        ([LAST, NONE, NONE], 1, 5, 2),
        ([TO_3, NONE, LAST], 1, 1021, 1),
        ([LAST, TO_1, TO_2], 3, 2037, 0),
        ([NONE, NONE, [0, 0, 0, 0, 3, 248]], 3, 1016, 2),
    ];
    for (pages, first, size, free) in rows {
        let (found, left) = adopted(rt.alloc(), &pages, first)?;
        assert!(rt; found == Ok(size));
        assert!(rt; left == free);
    }
    Ok(())
}

// A page outside, as the first one, behind another, and at the most; a page that leads to itself, or back; a number of bytes that
// is none, too many, or too few before another page.
#[test]
fn chains_that_do_not_fit(rt: HostRuntime) -> Result<(), Fail> {
    let rows: [([[u8; 6]; 3], u32, u32); 10] = [
        ([LAST, NONE, NONE], 0, 0),
        ([LAST, NONE, NONE], 4, 4),
        ([[0, 0, 0, 4, 3, 248], NONE, NONE], 1, 4),
        ([[255, 255, 255, 255, 3, 248], NONE, NONE], 1, u32::MAX),
        ([TO_1, NONE, NONE], 1, 1),
        ([TO_2, TO_3, TO_2], 1, 2),
        ([NONE, NONE, NONE], 2, 2),
        ([[0, 0, 0, 0, 3, 249], NONE, NONE], 1, 1),
        ([TO_2, [0, 0, 0, 3, 3, 247], LAST], 1, 2),
        ([TO_2, TO_3, [0, 0, 0, 0, 0, 0]], 1, 3),
    ];
    for (pages, first, page) in rows {
        let (found, left) = adopted(rt.alloc(), &pages, first)?;
        assert!(rt; found == Err(ChainError::BadChain { page }));
        assert!(rt; left == 3);
    }
    Ok(())
}

// The second chain goes over a page of the first one.
#[test]
fn chains_that_share_a_page(rt: HostRuntime) -> Result<(), Fail> {
    let mut host = device(rt.alloc(), &[TO_2, LAST, TO_2])?;
    let mut store = store_of(rt.alloc(), 3)?;
    assert!(rt; store.adopt(&mut host, 1) == Ok(1021));
    assert!(rt; store.adopt(&mut host, 3) == Err(ChainError::BadChain { page: 2 }));
    assert!(rt; store.free_count() == 1);
    Ok(())
}
