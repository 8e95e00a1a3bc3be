//! Which pages are free, and one of them without a walk.

ghost use Rattle.std.specs.Prelude.{◌≡◌, ◌<◌, ◌+◌, ◌-◌, ◌^◌, ◌≤◌, ℕ, true, false, List, [], ◌∷◌, ◌++◌, length, get_or, set, take, replicate, IfOk, OnOk, OnErr};
ghost use Rattle.tq_pages.specs.FreePages.{free_count};

use std::alloc::{AllocError, Global};
use std::marker::Model;

/// Which pages are free. All memory is taken when pages are added.
#[derive(Drop)]
pub(crate) struct FreePages {
    free: Vec<bool>,
    // The free pages come first.
    order: Vec<u32>,
    // Where in the order each free page stands.
    place: Vec<u32>,
    count: u32,
}

impl Model for FreePages {
    ghost use Rattle.std.specs.Prelude.{List, Bool};

    ghost Value = { List Bool };

    ghost use Rattle.tq_pages.specs.FreePages.{IsListed};

    ghost view = { λ a. a.free.items };

    ghost invariant = { λ a. IsListed a.free.items a.order.items a.place.items a.count };
}

impl FreePages {
    /// No page.
    pub(crate) fn new(alloc: Global) -> FreePages
        ensures { result ≡ [] }
    {
        FreePages {
            free: Vec::new(alloc),
            order: Vec::new(alloc),
            place: Vec::new(alloc),
            count: 0,
        }
    }

    /// The same pages once more.
    pub(crate) fn copy(&self, alloc: Global) -> Result<FreePages, AllocError>
        ensures { IfOk result (λ pages. pages ≡ self.now) }
    {
        Ok(FreePages {
            free: Vec::from_slice(alloc, self.free.as_slice())?,
            order: Vec::from_slice(alloc, self.order.as_slice())?,
            place: Vec::from_slice(alloc, self.place.as_slice())?,
            count: self.count,
        })
    }

    /// Adds a page that is not free.
    fn add(&mut self) -> Result<(), AllocError>
        requires { length self.old + 1 < 2 ^ 32 }
        ensures { OnOk result (self.new ≡ self.old ++ false ∷ []) }
    {
        self.order.push(0)?;
        self.place.push(0)?;
        self.free.push(false)?;
        Ok(())
    }

    /// Adds so many pages that are not free.
    pub(crate) fn add_used(&mut self, pages: u32) -> Result<(), AllocError>
        requires { length self.old + pages < 2 ^ 32 }
        ensures { OnOk result (self.new ≡ self.old ++ replicate pages false) }
    {
        for _ in 0..pages {
            self.add()?;
        }
        Ok(())
    }

    /// Adds so many free pages, of which the lowest are found first.
    pub(crate) fn add_free(&mut self, pages: u32) -> Result<(), AllocError>
        requires { length self.old + pages < 2 ^ 32 }
        ensures { OnOk result (self.new ≡ self.old ++ replicate pages true) }
    {
        let first = self.free.len() as u32;
        self.add_used(pages)?;
        let mut left = pages;
        while left > 0 {
            left -= 1;
            self.give(first + left);
        }
        Ok(())
    }

    /// How many pages are free.
    pub(crate) fn count(&self) -> u32
        ensures { result ≡ free_count self.now }
    {
        self.count
    }

    pub(crate) fn is_free(&self, page: u32) -> bool
        ensures { result ≡ get_or self.now page false }
    {
        match self.free.get(page as usize) {
            Some(free) => *free,
            None => false,
        }
    }

    /// A page that is free, where there is one.
    pub(crate) fn first(&self) -> u32
        requires { 1 ≤ free_count self.now }
        ensures { get_or self.now result false ≡ true }
    {
        self.order[self.count as usize - 1]
    }

    /// A page that is free, where one is asked for; else 0.
    pub(crate) fn first_if(&self, asked: bool) -> u32
        requires { asked ≡ true → 1 ≤ free_count self.now }
        ensures { asked ≡ true → get_or self.now result false ≡ true }
    {
        if asked { self.first() } else { 0 }
    }

    /// Makes a free page one that is not.
    pub(crate) fn take(&mut self, page: u32)
        requires { get_or self.old page false ≡ true }
        ensures pages { self.new ≡ set self.old page false }
        ensures count { free_count self.new + 1 ≡ free_count self.old }
    {
        let place = self.place[page as usize];
        let last = self.order[self.count as usize - 1];
        self.order[place as usize] = last;
        self.place[last as usize] = place;
        self.free[page as usize] = false;
        self.count -= 1;
    }

    /// Makes a page free that is not.
    pub(crate) fn give(&mut self, page: u32)
        requires within { page < length self.old }
        requires used { get_or self.old page false ≡ false }
        ensures pages { self.new ≡ set self.old page true }
        ensures count { free_count self.new ≡ free_count self.old + 1 }
    {
        self.order[self.count as usize] = page;
        self.place[page as usize] = self.count;
        self.free[page as usize] = true;
        self.count += 1;
    }
}
