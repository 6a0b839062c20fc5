//! The search for a place, over the pages of a slab.
ghost use Rattle.std.specs.Prelude.{◌≡◌, ◌≤◌, ◌<◌, ◌+◌, ◌-◌, IfOk, OnOk, OnErr, IfErr, IfSome, IfNone, length, vec_capacity};
ghost use Rattle.op_slots.specs.Pages.{first_key};
ghost use Rattle.op_slots.specs.Layout.{AreLaid, HasEmpty, HaveNoEmpty, FindsPlace, AreAllHeld};
ghost use Rattle.op_slots.specs.NoPlace.{WhyNoPlace};

use super::entry::{Entry, FreeList};
use super::pages::{NUM_PAGES, end_of};

/// Why there is no place. Each place of each page holds a value.
#[derive(Drop)]
pub enum NoPlace {
    /// There are no more pages.
    Full,
    /// Memory for another page ran out.
    OutOfMemory,
}

// The first page from this one on, of so many, that has an empty place which was used.
fn open_page(lists: &[FreeList], from: usize, pages: usize) -> Option<usize>
    requires { pages ≤ length lists.now }
    ensures some { IfSome result (λ page. (page < pages) × HasEmpty lists.now page) }
    ensures none { IfNone result (HaveNoEmpty lists.now from pages) }
{
    for page in from..pages {
        if lists[page].count != 0 {
            return Some(page);
        }
    }
    None
}

// Adds a page, with memory for all its places, behind pages whose places were all used. Answers its number.
fn add_page<T: Drop>(entries: &mut Vec<Entry<T>>, pages: &mut usize) -> Result<usize, NoPlace>
    requires few { pages.old ≤ NUM_PAGES }
    requires used { length entries.old.items ≡ first_key pages.old }
    requires memory { first_key pages.old ≤ vec_capacity entries.old }
    ensures ok { IfOk result (λ page. (page ≡ pages.old) × (pages.new ≡ pages.old + 1) × (pages.old < NUM_PAGES)) }
    ensures same { entries.new.items ≡ entries.old.items }
    ensures memory { first_key pages.new ≤ vec_capacity entries.new }
    ensures why { IfErr result (WhyNoPlace pages.old) }
    ensures err { OnErr result (pages.new ≡ pages.old) }
{
    let page = *pages;
    if page == NUM_PAGES {
        return Err(NoPlace::Full);
    }
    match entries.reserve_exact(end_of(page + 1) - entries.len()) {
        Ok(()) => {
            *pages = page + 1;
            Ok(page)
        }
        Err(_) => Err(NoPlace::OutOfMemory),
    }
}

// The page with a place for the next value: the first from `first` on that has an empty place, else a new page, else an earlier one.
#[cold]
#[inline(never)]
fn search<T: Drop>(
    entries: &mut Vec<Entry<T>>,
    lists: &[FreeList],
    pages: &mut usize,
    first: usize,
) -> Result<usize, NoPlace>
    requires laid { AreLaid entries.old.items lists.now pages.old }
    requires memory { first_key pages.old ≤ vec_capacity entries.old }
    requires search { first ≤ pages.old - 1 }
    ensures ok { IfOk result (FindsPlace entries.old.items lists.now pages.old pages.new) }
    ensures same { entries.new.items ≡ entries.old.items }
    ensures memory { first_key pages.new ≤ vec_capacity entries.new }
    ensures why { IfErr result (WhyNoPlace pages.old) }
    ensures held { OnErr result (AreAllHeld entries.old.items pages.old) }
    ensures err { OnErr result (pages.new ≡ pages.old) }
{
    if let Some(page) = open_page(lists, first, *pages) {
        return Ok(page);
    }
    if entries.len() < end_of(*pages) {
        return Ok(*pages - 1);
    }
    match add_page(entries, pages) {
        Ok(page) => Ok(page),
        Err(why) => match open_page(lists, 0, *pages) {
            Some(page) => Ok(page),
            None => Err(why),
        },
    }
}

/// Sees that the page `first` has an empty place with memory. If it has none, `first` is another page then: the first from it on that
/// has one, else a new page, else an earlier one.
pub fn make_place<T: Drop>(
    entries: &mut Vec<Entry<T>>,
    lists: &[FreeList],
    pages: &mut usize,
    first: &mut usize,
) -> Result<(), NoPlace>
    requires laid { AreLaid entries.old.items lists.now pages.old }
    requires memory { first_key pages.old ≤ vec_capacity entries.old }
    requires search { first.old ≤ pages.old - 1 }
    ensures ok { OnOk result (FindsPlace entries.old.items lists.now pages.old pages.new first.new) }
    ensures same { entries.new.items ≡ entries.old.items }
    ensures memory { first_key pages.new ≤ vec_capacity entries.new }
    ensures why { IfErr result (WhyNoPlace pages.old) }
    ensures held { OnErr result (AreAllHeld entries.old.items pages.old) }
    ensures err { OnErr result ((pages.new ≡ pages.old) × (first.new ≡ first.old)) }
{
    if lists[*first].count != 0 {
        return Ok(());
    }
    match search(entries, lists, pages, *first) {
        Ok(page) => {
            *first = page;
            Ok(())
        }
        Err(why) => Err(why),
    }
}
