//! Which keys lie on which page.
ghost use Rattle.std.specs.Prelude.{◌≡◌, ◌+◌, ◌<◌, ◌≤◌};
ghost use Rattle.op_slots.specs.Pages.{page_of as page_by_rule, places_on as places_by_rule, first_key as first_by_rule};

use super::MAX_LIVE;

/// How many pages there are at most (monoio: `NUM_PAGES`).
pub const NUM_PAGES: usize = 26;

/// How many places page 0 has (monoio: `PAGE_INITIAL_SIZE`). Each later page has twice as many as the one before it.
pub const PAGE_INITIAL_SIZE: usize = 64;

/// The page of a key: how many binary digits `(key + 64) >> 7` has, where 0 has none, and 25 at most (monoio: `get_page_id`). The sum
/// stays at `usize::MAX` if it would pass it. A key from `MAX_LIVE` on, which no value has, is answered with 25.
pub fn page_of(key: usize) -> usize
    ensures rule { result ≡ page_by_rule key }
    ensures few { result < NUM_PAGES }

    // The key is one of the page's, if it can be a key at all.
    ensures first { first_by_rule result ≤ key }
    ensures last { key < MAX_LIVE → key < first_by_rule result + places_by_rule result }
{
    if key < MAX_LIVE {
        page_at(key)
    } else {
        NUM_PAGES - 1
    }
}

// The page of a key that a value can have: how far the highest binary digit of `key + 64` is above that of 64.
pub(crate) fn page_at(key: usize) -> usize
    requires { key < MAX_LIVE }
    ensures { result ≡ page_by_rule key }
{
    ((key + PAGE_INITIAL_SIZE).ilog2() - 6) as usize
}

// How many places so many pages have, which is the first key behind them.
pub(crate) fn end_of(pages: usize) -> usize
    requires { pages ≤ NUM_PAGES }
    ensures { result ≡ first_by_rule pages }
{
    (PAGE_INITIAL_SIZE << pages) - PAGE_INITIAL_SIZE
}
