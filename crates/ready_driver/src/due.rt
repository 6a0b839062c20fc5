//! Handles whose report is due, each once.
ghost use Rattle.std.specs.Prelude.{◌≡◌, ◌≢◌, ◌+◌, ℕ, false, [], length, get_or, slice_get, OnOk, OnErr};
ghost use Rattle.machine.specs.Lists.{has_number};
ghost use Rattle.machine.specs.Request.{listed};
ghost use Rattle.ready_driver.specs.Due.{with_due, with_each_due};

use machine::Names;
use rent_buf::OutOfMemory;
use std::alloc::Global;
use std::marker::Model;

/// Handles whose report is due, in the order in which they became so: each once, however often it is added. A call costs the same however
/// many handles there are, but that `clear` looks at each handle that is due. (not in monoio)
#[derive(Debug, Drop)]
pub struct Due {
    list: Vec<u64>,
    // By handle: it is in the list.
    marks: Vec<bool>,
}

impl Model for Due {
    ghost use Rattle.std.specs.Prelude.{length};
    ghost use Rattle.std.specs.Vec.{vec_capacity};
    ghost use Rattle.ready_driver.specs.Due.{Duty, IsMarked};

    ghost Value = { Duty };

    ghost view = { λ d. record { handles = d.list.items; count = length d.marks.items } };

    ghost invariant = { λ d. IsMarked d.list.items d.marks.items (vec_capacity d.list) };
}

impl Due {
    /// No handle is due, and none can be. It takes no memory. (not in monoio)
    pub fn new(alloc: Global) -> Due
        ensures { result ≡ record { handles = []; count = 0 } }
    {
        Due {
            list: Vec::new(alloc),
            marks: Vec::new(alloc),
        }
    }

    /// How many handles are due. (not in monoio)
    pub fn len(&self) -> usize
        ensures { result ≡ length self.now.handles }
    {
        self.list.len()
    }

    /// How many handles can be due: each has a number below it. (not in monoio)
    pub fn count(&self) -> usize
        ensures { result ≡ self.now.count }
    {
        self.marks.len()
    }

    /// The handle at a place among those that are due, if there is one. (not in monoio)
    pub fn get(&self, at: usize) -> Option<u64>
        ensures { result ≡ slice_get self.now.handles at }
    {
        self.list.get(at).copied()
    }

    /// One handle more can be due. If memory runs out, nothing changes. (not in monoio)
    pub fn grow(&mut self) -> Result<(), OutOfMemory>
        ensures ok { OnOk result (self.new ≡ record self.old { count = self.old.count + 1 }) }
        ensures err { OnErr result (self.new ≡ self.old) }
    {
        self.list.reserve(self.marks.len() + 1)?;
        self.marks.push(false)?;
        Ok(())
    }

    /// A handle is due, if it can be. It takes no memory. (not in monoio)
    pub fn add(&mut self, h: u64)
        ensures { self.new ≡ with_due self.old h }
    {
        let at = h as usize;
        if at < self.marks.len() && !self.marks[at] {
            self.marks[at] = true;
            self.list.push_reserved(h);
        }
    }

    /// Each of these handles is due, if it can be. It takes no memory. (not in monoio)
    pub fn add_names(&mut self, names: Names)
        ensures { self.new ≡ with_each_due self.old (listed names) }
    {
        match names {
            Names::Nothing => {}
            Names::One(h) => self.add(h),
            Names::Two(lower, upper) => {
                self.add(lower);
                self.add(upper);
            }
        }
    }

    /// No handle is due any more. (not in monoio)
    pub fn clear(&mut self)
        ensures { self.new ≡ record self.old { handles = [] } }
    {
        unmark(&self.list, &mut self.marks);
        self.list.clear();
    }
}

// No handle is marked any more. These were.
fn unmark(list: &[u64], marks: &mut Vec<bool>)
    requires { (h : ℕ) → get_or marks.old.items h false ≡ has_number h list.now }
    ensures none { (h : ℕ) → get_or marks.new.items h false ≡ false }
    ensures len { length marks.new.items ≡ length marks.old.items }
{
    for at in 0..list.len() {
        unmark_one(marks, list[at]);
    }
}

// A handle isn't marked any more.
fn unmark_one(marks: &mut Vec<bool>, h: u64)
    ensures own { get_or marks.new.items h false ≡ false }
    ensures others { (n : ℕ) → n ≢ h → get_or marks.new.items n false ≡ get_or marks.old.items n false }
    ensures len { length marks.new.items ≡ length marks.old.items }
{
    let at = h as usize;
    if at < marks.len() {
        marks[at] = false;
    }
}
