// Where the operations that wait are among the entries of a waiting list, where these aren't in the order of their numbers.
ghost use Rattle.std.specs.Prelude.{◌≡◌, ◌≤◌, ◌+◌, ◌++◌, ◌∷◌, [], ℕ, Some, None, true, false, nat_eq, is_some, cond, length};
ghost use Rattle.std.specs.Prelude.{OnOk, IfSome, IfNone};
ghost use Rattle.std.specs.HashMap.{hash_map_len, spare, get_by};
ghost use Rattle.ready_driver.specs.declared.scheduled_io.Waiter.{Waiter};
ghost use Rattle.ready_driver.specs.declared.scheduled_io.wait_list.Entry.TheVariants.{Waits};
ghost use Rattle.ready_driver.specs.ScheduledIo.{IsOnceEach};
ghost use Rattle.ready_driver.specs.WaitList.{live, is_live, is_of, IsInOrder, IsIndexed, IsAway, IsSpot};

use crate::scheduled_io::wait_list::Entry;
use rent_buf::OutOfMemory;
use std::collections::HashMap;

// Where an operation waits, if it does.
pub(super) fn spot_of(entries: &[Entry], places: &HashMap<u64, usize>, serial: u64) -> Option<usize>
    requires { IsIndexed places.now entries.now }
    ensures some { IfSome result (λ at. IsSpot entries.now serial at) }
    ensures none { IfNone result (IsAway entries.now serial) }
{
    places.get(&serial).copied()
}

// Reserves memory for so many places in all.
pub(super) fn reserve(places: &mut HashMap<u64, usize>, count: usize) -> Result<(), OutOfMemory>
    ensures same { (n : ℕ) → get_by (nat_eq n) places.new ≡ get_by (nat_eq n) places.old }
    ensures len { hash_map_len places.new ≡ hash_map_len places.old }
    ensures ok { OnOk result (count ≤ hash_map_len places.new + spare places.new) }
{
    let len = places.len();
    if count <= len {
        return Ok(());
    }
    if places.reserve(count - len).is_err() {
        return Err(OutOfMemory);
    }
    Ok(())
}

// An operation that doesn't wait gets the place behind all entries.
pub(super) fn join(entries: &[Entry], in_order: bool, places: &mut HashMap<u64, usize>, serial: u64)
    requires index { in_order ≡ false → IsIndexed places.old entries.now }
    requires once { IsOnceEach (live entries.now) }
    requires away { IsAway entries.now serial }
    requires room { length (live entries.now) + 1 ≤ hash_map_len places.old + spare places.old }
    ensures { (w : Waiter) → w.serial ≡ serial → IsIndexed places.new (entries.now ++ Waits w ∷ []) }
{
    if in_order {
        index_all(entries, places);
    }
    let _ = places.insert(serial, entries.len());
}

// Where the entries aren't in order, an operation has no place any more.
pub(super) fn leave(in_order: bool, places: &mut HashMap<u64, usize>, serial: u64)
    ensures gone { in_order ≡ false → (n : ℕ) →
        get_by (nat_eq n) places.new ≡ cond (nat_eq serial n) None (get_by (nat_eq n) places.old) }
    ensures len { in_order ≡ false →
        hash_map_len places.new + cond (is_some (get_by (nat_eq serial) places.old)) 1 0 ≡ hash_map_len places.old }
{
    if !in_order {
        let _ = places.remove(&serial);
    }
}

// Entries are in order, be it that there is none. Where they aren't, their operations get their places.
pub(super) fn settle(entries: &[Entry], in_order: bool, places: &mut HashMap<u64, usize>) -> bool
    requires order { IsInOrder in_order entries.now }
    requires once { IsOnceEach (live entries.now) }
    requires room { in_order ≡ false → length (live entries.now) ≤ hash_map_len places.old + spare places.old }
    ensures order { IsInOrder result entries.now }
    ensures index { result ≡ false → IsIndexed places.new entries.now }
{
    if in_order || entries.is_empty() {
        return true;
    }
    index_all(entries, places);
    false
}

// Each operation that waits gets the place of its entry.
fn index_all(entries: &[Entry], places: &mut HashMap<u64, usize>)
    requires once { IsOnceEach (live entries.now) }
    requires room { length (live entries.now) ≤ hash_map_len places.old + spare places.old }
    ensures index { IsIndexed places.new entries.now }
    ensures room { hash_map_len places.old + spare places.old ≤ hash_map_len places.new + spare places.new }
{
    places.clear();
    for at in 0..entries.len() {
        index_one(&entries[at], at, places);
    }
}

// The operation of an entry gets this place, if one waits with it.
fn index_one(entry: &Entry, at: usize, places: &mut HashMap<u64, usize>)
    requires { cond (is_live entry.now) 1 0 ≤ spare places.old }
    ensures gets { (n : ℕ) → get_by (nat_eq n) places.new ≡ cond (is_of n entry.now) (Some at) (get_by (nat_eq n) places.old) }
    ensures len { ((n : ℕ) → is_of n entry.now ≡ true → get_by (nat_eq n) places.old ≡ None) →
        hash_map_len places.new ≡ hash_map_len places.old + cond (is_live entry.now) 1 0 }
    ensures spare { spare places.old ≤ spare places.new + cond (is_live entry.now) 1 0 }
{
    match entry {
        Entry::Waits(waiter) => {
            let _ = places.insert(waiter.serial, at);
        }
        Entry::Gap(_) => {}
    }
}
