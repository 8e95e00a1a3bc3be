//! Pages of a chain whose numbers follow one another.

ghost use Rattle.std.specs.Prelude.{◌≡◌, ◌<◌, ◌≤◌, ◌+◌, ◌^◌, ℕ, length};
ghost use Rattle.tq_pages.specs.Store.{page_behind};

/// How many of the next `most` pages of a chain, from this one on, follow one another in number.
pub(crate) fn run_length(next: &[u32], page: u32, most: u32) -> u32
    requires some { 1 ≤ most }
    requires within { (k : ℕ) → k < most → page_behind next.now page k < length next.now }
    requires few { length next.now < 2 ^ 32 }
    ensures some { 1 ≤ result }
    ensures most { result ≤ most }
    ensures run { (k : ℕ) → k < result → page_behind next.now page k ≡ page + k }
{
    let mut count = 1;
    while count < most && next[(page + count - 1) as usize] == page + count {
        count += 1;
    }
    count
}
