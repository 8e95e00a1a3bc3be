//! Chains that are stored already.

ghost use Rattle.std.specs.Prelude.{◌≡◌, ◌⊎◌, ◌<◌, ◌≤◌, ◌+◌, ◌*◌, ℕ, true, false, length, IfOk, IfErr, IfSome, IfNone, IsErrOf};
ghost use Rattle.tq_field.specs.Places.{number_at};
ghost use Rattle.tq_host.specs.Calls.{HasCause, HasCauseOf};
ghost use Rattle.tq_extent.specs.Bytes.{owned_bytes, reaches, IsQuiet};
ghost use Rattle.tq_pages.specs.declared.error.ChainError.TheVariants as fault;
ghost use Rattle.tq_pages.specs.Store.{is_free, HasAdded};
ghost use Rattle.tq_pages.specs.Content.{HasChain, IsFit};
ghost use Rattle.tq_pages.specs.Adopting.{IsRefused, IsKept};

use crate::filling::{PAGE, PAYLOAD};
use crate::{ChainError, PageStore};
use tq_field::{get_u16, get_u32};
use tq_host::{Failed, Host};

/// What a page says of its chain.
#[derive(Clone, Copy)]
struct Numbers {
    next: u32,
    used: u32,
}

/// The number in the 4 bytes from this place on, which has to have them.
fn number(bytes: &[u8], at: usize) -> u32
    requires { at + 4 ≤ length bytes.now }
    ensures { result ≡ number_at at 4 bytes.now }
{
    get_u32(bytes, at).unwrap_or(0)
}

/// The number in the 2 bytes from this place on, which has to have them.
fn short(bytes: &[u8], at: usize) -> u16
    requires { at + 2 ≤ length bytes.now }
    ensures { result ≡ number_at at 2 bytes.now }
{
    get_u16(bytes, at).unwrap_or(0)
}

/// Whether they can be those of a page.
fn fit(numbers: Numbers) -> bool
    ensures fit { result ≡ true → IsFit numbers.next numbers.used }
    ensures not_fit { result ≡ false → IsFit numbers.next numbers.used → ⊥ }
{
    1 <= numbers.used
        && (numbers.used == PAYLOAD as u32 || (numbers.next == 0 && numbers.used < PAYLOAD as u32))
}

impl PageStore {
    /// Enters the chain that is stored from this page on, and gives the number of its bytes. Nothing is
    /// written, and no memory is taken.
    ///
    /// `BadChain` names the first page that is not a free one of the store, or is in the chain
    /// already, or whose number of bytes is out of its limit: 1,016 where another page is behind it,
    /// else 1 to 1,016. Nothing is entered then. After `Device` the store is spent.
    pub fn adopt<H: Host>(&mut self, host: &mut H, first: u32) -> Result<u32, ChainError>
        requires reach { H.tells.reads → reaches self.old.clusters ((H.view host.old).reads self.old.dev) ≡ true }
        ensures some { IfOk result (λ size. 1 ≤ size) }
        ensures chain { IfOk result (λ size. HasAdded self.old first size self.new) }
        ensures held { IfOk result (λ size. H.tells.reads → HasChain self.new first (owned_bytes self.old.clusters ((H.view host.old).reads self.old.dev))) }
        ensures refused { IfErr result (λ e. H.tells.reads → IsRefused self.old (owned_bytes self.old.clusters ((H.view host.old).reads self.old.dev)) first e) }
        ensures kept { IfErr result (IsKept self.old self.new) }
        ensures quiet { IsQuiet self.old.dev (H.view host.old) (H.view host.new) }
        ensures cause { HasCauseOf (IsErrOf result fault.Device) (H.view host.old).faults (H.view host.new).faults }
    {
        let _free = self.free_count();
        let mut page = first;
        let mut count = 0;
        loop {
            let Some(numbers) = self.fitting(host, page)? else {
                self.give_back(first, count);
                return Err(ChainError::BadChain { page });
            };
            self.take_page(page, numbers.next);
            count += 1;
            if numbers.next == 0 {
                let size = PAYLOAD as u32 * (count - 1) + numbers.used;
                self.set_size(first, size);
                return Ok(size);
            }
            page = numbers.next;
        }
    }

    /// The numbers of a page, where it is free and they fit.
    fn fitting<H: Host>(&self, host: &mut H, page: u32) -> Result<Option<Numbers>, Failed>
        requires reach { H.tells.reads → reaches self.now.clusters ((H.view host.old).reads self.now.dev) ≡ true }
        ensures free { IfOk result (λ found. IfSome found (λ n. is_free self.now page ≡ true)) }
        ensures fit { IfOk result (λ found. IfSome found (λ n. IsFit n.next n.used)) }
        ensures next { IfOk result (λ found. IfSome found (λ n. H.tells.reads
            → n.next ≡ number_at (1024 * page) 4 (owned_bytes self.now.clusters ((H.view host.old).reads self.now.dev)))) }
        ensures used { IfOk result (λ found. IfSome found (λ n. H.tells.reads
            → n.used ≡ number_at (1024 * page + 4) 2 (owned_bytes self.now.clusters ((H.view host.old).reads self.now.dev)))) }
        ensures none { IfOk result (λ found. IfNone found ((is_free self.now page ≡ false) ⊎ (H.tells.reads
            → IsFit (number_at (1024 * page) 4 (owned_bytes self.now.clusters ((H.view host.old).reads self.now.dev)))
            (number_at (1024 * page + 4) 2 (owned_bytes self.now.clusters ((H.view host.old).reads self.now.dev))) → ⊥))) }
        ensures quiet { IsQuiet self.now.dev (H.view host.old) (H.view host.new) }
        ensures cause { HasCause (H.view host.old).faults (H.view host.new).faults result }
    {
        if !self.free.is_free(page) {
            return Ok(None);
        }
        let numbers = self.numbers(host, page)?;
        if !fit(numbers) {
            return Ok(None);
        }
        Ok(Some(numbers))
    }

    /// The numbers that stand on a page.
    fn numbers<H: Host>(&self, host: &mut H, page: u32) -> Result<Numbers, Failed>
        requires page { page < length self.now.free }
        requires reach { H.tells.reads → reaches self.now.clusters ((H.view host.old).reads self.now.dev) ≡ true }
        ensures next { IfOk result (λ n. H.tells.reads
            → n.next ≡ number_at (1024 * page) 4 (owned_bytes self.now.clusters ((H.view host.old).reads self.now.dev))) }
        ensures used { IfOk result (λ n. H.tells.reads
            → n.used ≡ number_at (1024 * page + 4) 2 (owned_bytes self.now.clusters ((H.view host.old).reads self.now.dev))) }
        ensures quiet { IsQuiet self.now.dev (H.view host.old) (H.view host.new) }
        ensures cause { HasCause (H.view host.old).faults (H.view host.new).faults result }
    {
        let mut bytes = [0; 6];
        let at = PAGE as u64 * page as u64;
        self.map.read_at(host, self.dev, at, &mut bytes)?;
        let next = number(&bytes, 0);
        let used = short(&bytes, 4).into();
        Ok(Numbers { next, used })
    }
}
