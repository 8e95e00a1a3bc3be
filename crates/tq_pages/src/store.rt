//! Which pages are free, and the chains: in memory.

ghost use Rattle.std.specs.Prelude.{◌≡◌, ◌<◌, ◌≤◌, ◌+◌, ◌++◌, ◌^◌, ℕ, true, false, List, length, take, get_or, replicate, IfOk, OnOk, OnErr};
ghost use Rattle.tq_extent.specs.Pages.{page_count};
ghost use Rattle.tq_pages.specs.Content.{HasChain};
ghost use Rattle.tq_pages.specs.FreePages.{free_count};
ghost use Rattle.tq_pages.specs.Store as stores;
ghost use Rattle.tq_pages.specs.Store.{Store, is_free, free_pages, size_of, count_of, page_of, page_behind, new_store, extended, with_taken, with_free, with_size, AreLoose, HasTaken, HasAdded, IsStore};

use crate::filling::{PAGE, PAYLOAD};
use crate::free::FreePages;
use std::alloc::{AllocError, Global};
use std::marker::Model;
use tq_extent::PageMap;

/// The most pages that are written at once: those of the longest message.
pub(crate) const RUN: usize = 65;

/// The pages of an owner of a device: which of them are free, and the chains on the others, each
/// with its pages and the number of its bytes.
///
/// All memory is taken at `new` and `extend`. A page is named by its number among its owner's. After
/// an `adopt` that failed for the device the store is spent.
#[derive(Drop)]
pub struct PageStore {
    pub(crate) dev: u8,
    pub(crate) map: PageMap,
    pub(crate) free: FreePages,
    // The page behind each page of a chain.
    pub(crate) next: Vec<u32>,
    // The bytes of the chain that begins at each page; 0 where none does.
    pub(crate) sizes: Vec<u32>,
    // Pages on their way to the device.
    pub(crate) buffer: Vec<u8>,
}

impl Model for PageStore {
    ghost use Rattle.tq_pages.specs.Store.{Store};

    ghost Value = { Store };

    ghost use Rattle.tq_pages.specs.Buffer.{IsSound};

    ghost view = { λ a. record { dev = a.dev; clusters = a.map; free = a.free; next = a.next.items; sizes = a.sizes.items } };

    ghost invariant = { λ a. IsSound (record { dev = a.dev; clusters = a.map; free = a.free; next = a.next.items; sizes = a.sizes.items }) a.buffer.items };
}

/// Adds so many zeros.
fn add_zeros(numbers: &mut Vec<u32>, count: u32) -> Result<(), AllocError>
    ensures { OnOk result (numbers.new.items ≡ numbers.old.items ++ replicate count 0) }
{
    for _ in 0..count {
        numbers.push(0)?;
    }
    Ok(())
}

/// The pages that so many bytes take.
pub(crate) fn chain_pages(size: u32) -> u32
    ensures { result ≡ stores.chain_pages size }
{
    ((u64::from(size) + 1015) / 1016) as u32
}

impl PageStore {
    /// A store of the `pages` pages from `first` on, all of them free. `first` is at least 1, and the
    /// map has the pages.
    pub fn new(
        alloc: Global,
        dev: u8,
        map: PageMap,
        first: u32,
        pages: u32,
    ) -> Result<PageStore, AllocError>
        requires dev { dev < 8 }
        requires first { 1 ≤ first }
        requires pages { first + pages ≤ page_count map }
        ensures { IfOk result (λ store. store ≡ new_store dev map first pages) }
    {
        let _all = map.pages();
        let mut free = FreePages::new(alloc);
        free.add_used(first)?;
        free.add_free(pages)?;
        let mut next = Vec::new(alloc);
        add_zeros(&mut next, first + pages)?;
        let mut sizes = Vec::new(alloc);
        add_zeros(&mut sizes, first + pages)?;
        let buffer = vec![in alloc; 0u8; PAGE * RUN]?;
        Ok(PageStore {
            dev,
            map,
            free,
            next,
            sizes,
            buffer,
        })
    }

    /// Adds so many free pages at the end. The map begins with the clusters that the store has, and
    /// has the new pages too. After an error nothing is changed.
    pub fn extend(&mut self, alloc: Global, map: PageMap, pages: u32) -> Result<(), AllocError>
        requires clusters { take (length self.old.clusters) map ≡ self.old.clusters }
        requires pages { length self.old.free + pages ≤ page_count map }
        ensures extended { OnOk result (self.new ≡ extended self.old map pages) }
        ensures unchanged { OnErr result (self.new ≡ self.old) }
    {
        let _all = map.pages();
        let mut free = self.free.copy(alloc)?;
        free.add_free(pages)?;
        let mut next = Vec::from_slice(alloc, self.next.as_slice())?;
        add_zeros(&mut next, pages)?;
        let mut sizes = Vec::from_slice(alloc, self.sizes.as_slice())?;
        add_zeros(&mut sizes, pages)?;
        self.map = map;
        self.free = free;
        self.next = next;
        self.sizes = sizes;
        Ok(())
    }

    /// How many pages are free.
    pub fn free_count(&self) -> u32
        ensures free { result ≡ free_pages self.now }
        // The pages of a chain are not free, and no two chains share one.
        ensures store { IsStore self.now }
    {
        self.free.count()
    }

    /// Makes the pages of a chain free, which begins at this page. Takes no memory.
    pub fn release(&mut self, first: u32)
        requires { 1 ≤ size_of self.old first }
        ensures released { HasAdded self.new first (size_of self.old first) self.old }
        // Where the pages of a chain say its numbers, those of each that is left still do.
        ensures left { (g : ℕ) (bytes : List ℕ) → HasChain self.old g bytes → HasChain self.new g bytes }
    {
        let count = chain_pages(self.sizes[first as usize]);
        self.set_size(first, 0);
        self.give_back(first, count);
    }

    /// Takes a free page, and says which one is behind it.
    pub(crate) fn take_page(&mut self, page: u32, next: u32)
        requires { is_free self.old page ≡ true }
        ensures { self.new ≡ with_taken self.old page next }
    {
        self.free.take(page);
        self.next[page as usize] = next;
    }

    /// Makes a page of no chain free.
    fn give_page(&mut self, page: u32)
        requires within { page < length self.old.free }
        requires used { is_free self.old page ≡ false }
        requires alone { (f k : ℕ) → k < count_of self.old f → page_of self.old f k ≡ page → ⊥ }
        ensures { self.new ≡ with_free self.old page }
    {
        self.free.give(page);
    }

    /// Makes pages of no chain free, which follow one another from this one on.
    pub(crate) fn give_back(&mut self, first: u32, count: u32)
        requires { AreLoose self.old first count }
        ensures taken { HasTaken self.new first count self.old }
        ensures next { self.new.next ≡ self.old.next }
        ensures sizes { self.new.sizes ≡ self.old.sizes }
    {
        let mut page = first;
        for _ in 0..count {
            let next = self.next[page as usize];
            self.give_page(page);
            page = next;
        }
    }

    /// Makes pages of no chain one, of so many bytes, that begins at this page; none where there are
    /// none, and the chain from there is no more.
    pub(crate) fn set_size(&mut self, first: u32, size: u32)
        requires within { first < length self.old.sizes }
        requires loose { AreLoose self.old first (stores.chain_pages size) }
        ensures { self.new ≡ with_size self.old first size }
    {
        self.sizes[first as usize] = size;
    }

    /// Takes the pages for a chain of `size` bytes, and gives its first page. The bytes are not none,
    /// and the pages for them are free. Takes no memory, and calls no device: what stands on the pages
    /// is not the chain's before `put`.
    pub fn take(&mut self, size: u32) -> u32
        requires some { 1 ≤ size }
        requires room { stores.chain_pages size ≤ free_pages self.old }
        ensures added { HasAdded self.old result size self.new }
    {
        let count = chain_pages(size);
        let first = self.free.first();
        let mut page = first;
        for k in 0..count {
            page = self.take_linked(page, k + 1 < count);
        }
        self.set_size(first, size);
        first
    }

    /// Takes a free page, and puts another one behind it where more are to come.
    fn take_linked(&mut self, page: u32, more: bool) -> u32
        requires page { is_free self.old page ≡ true }
        requires more { more ≡ true → 2 ≤ free_pages self.old }
        ensures taken { self.new ≡ with_taken self.old page result }
        ensures free { more ≡ true → is_free self.new result ≡ true }
    {
        self.free.take(page);
        let next = self.free.first_if(more);
        self.next[page as usize] = next;
        next
    }
}
