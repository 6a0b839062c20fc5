//! What the user of a driver keeps by number: the tokens of its operations, its cancellers and its cancel handles.
ghost use Rattle.std.specs.Prelude.{◌≡◌, ◌++◌, [], ◌∷◌, None, Some, MatchOption, OnOk, OnErr, IfOk};
ghost use Rattle.std.specs.Prelude.{length, slice_get};
ghost use Rattle.machine.specs.Lists.{amended};
ghost use Rattle.driver_core.specs.Tokens.{token_at, by_number, cancellers_in, handles_in, KeepsGroups, HasRoom, HasCancellerRoom};

use crate::members::{CancelHandle, Canceller};
use crate::op::Op;
use rent_buf::OutOfMemory;
use std::alloc::Global;

/// The tokens of a driver's operations, its cancellers and its cancel handles, each under its number, as whoever answers events about
/// numbers keeps them. They can't be copied, and `forget` spends them. (not in monoio)
pub struct Tokens {
    // A place for each operation that was submitted, by its number: with its token, if it was neither returned nor dropped.
    ops: Vec<Option<Op>>,
    // The canceller of each number. Its place is empty only while its group is being canceled.
    cancellers: Vec<Option<Canceller>>,
    // The cancel handle of each number.
    handles: Vec<CancelHandle>,
}

impl Tokens {
    /// No tokens, no cancellers and no cancel handles. It takes no memory. (not in monoio)
    pub fn new(alloc: Global) -> Tokens
        ensures ops { by_number result ≡ [] }
        ensures cancellers { cancellers_in result ≡ [] }
        ensures handles { handles_in result ≡ [] }
    {
        Tokens {
            ops: Vec::new(alloc),
            cancellers: Vec::new(alloc),
            handles: Vec::new(alloc),
        }
    }

    /// Memory for one token more. (not in monoio)
    pub fn reserve_one(&mut self) -> Result<(), OutOfMemory>
        ensures room { OnOk result (HasRoom self.new) }
        ensures items { by_number self.new ≡ by_number self.old }
        ensures groups { KeepsGroups self.old self.new }
    {
        self.ops.reserve(1)?;
        Ok(())
    }

    /// The token of the next number. (not in monoio)
    pub fn add(&mut self, op: Op)
        requires { HasRoom self.old }
        ensures items { by_number self.new ≡ by_number self.old ++ Some op ∷ [] }
        ensures groups { KeepsGroups self.old self.new }
    {
        self.ops.push_reserved(Some(op));
    }

    /// The token of a number, where there is one. (not in monoio)
    pub fn of_number(&self, n: usize) -> Option<&Op>
        ensures { MatchOption result (token_at (by_number self.now) n ≡ None) (λ op. token_at (by_number self.now) n ≡ Some op.now) }
    {
        if n < self.ops.len() {
            self.ops[n].as_ref()
        } else {
            None
        }
    }

    /// Takes the token of a number, where there is one. (not in monoio)
    pub fn take(&mut self, n: usize) -> Option<Op>
        ensures value { result ≡ token_at (by_number self.old) n }
        ensures rest { by_number self.new ≡ amended (by_number self.old) n (λ token. None) }
        ensures groups { KeepsGroups self.old self.new }
    {
        if n < self.ops.len() {
            self.ops[n].take()
        } else {
            None
        }
    }

    /// Puts a token back under its number. (not in monoio)
    pub fn put(&mut self, n: usize, op: Op)
        ensures items { token_at (by_number self.old) n ≡ None → by_number self.new ≡ amended (by_number self.old) n (λ token. Some op) }
        ensures groups { KeepsGroups self.old self.new }
    {
        if n < self.ops.len() {
            match self.ops[n].replace(op) {
                Some(old) => old.forget(),
                None => {}
            }
        } else {
            op.forget();
        }
    }

    /// Memory for one canceller more. (not in monoio)
    pub fn reserve_canceller(&mut self) -> Result<(), OutOfMemory>
        ensures room { OnOk result (HasCancellerRoom self.new) }
        ensures ops { by_number self.new ≡ by_number self.old }
        ensures groups { KeepsGroups self.old self.new }
    {
        self.cancellers.reserve(1)?;
        Ok(())
    }

    /// The canceller of the next number, and that number. (not in monoio)
    pub fn add_canceller(&mut self, canceller: Canceller) -> u64
        requires { HasCancellerRoom self.old }
        ensures number { result ≡ length (cancellers_in self.old) }
        ensures added { cancellers_in self.new ≡ cancellers_in self.old ++ Some canceller ∷ [] }
        ensures ops { by_number self.new ≡ by_number self.old }
        ensures handles { handles_in self.new ≡ handles_in self.old }
    {
        let number = self.cancellers.len() as u64;
        self.cancellers.push_reserved(Some(canceller));
        number
    }

    /// The canceller of a number, where there is one. (not in monoio)
    pub fn canceller(&self, c: usize) -> Option<&Canceller>
        ensures { MatchOption result (token_at (cancellers_in self.now) c ≡ None)
            (λ canceller. token_at (cancellers_in self.now) c ≡ Some canceller.now) }
    {
        if c < self.cancellers.len() {
            self.cancellers[c].as_ref()
        } else {
            None
        }
    }

    /// Takes the canceller of a number, where there is one. (not in monoio)
    pub fn take_canceller(&mut self, c: usize) -> Option<Canceller>
        ensures value { result ≡ token_at (cancellers_in self.old) c }
        ensures rest { cancellers_in self.new ≡ amended (cancellers_in self.old) c (λ canceller. None) }
        ensures ops { by_number self.new ≡ by_number self.old }
        ensures handles { handles_in self.new ≡ handles_in self.old }
    {
        if c < self.cancellers.len() {
            self.cancellers[c].take()
        } else {
            None
        }
    }

    /// Puts a canceller under a number that there is. (not in monoio)
    pub fn put_canceller(&mut self, c: usize, canceller: Canceller)
        ensures put { cancellers_in self.new ≡ amended (cancellers_in self.old) c (λ place. Some canceller) }
        ensures ops { by_number self.new ≡ by_number self.old }
        ensures handles { handles_in self.new ≡ handles_in self.old }
    {
        if c < self.cancellers.len() {
            let _ = self.cancellers[c].replace(canceller);
        }
    }

    /// The cancel handle of the next number, and that number. (not in monoio)
    pub fn add_handle(&mut self, handle: CancelHandle) -> Result<u64, OutOfMemory>
        ensures number { IfOk result (λ number. number ≡ length (handles_in self.old)) }
        ensures added { OnOk result (handles_in self.new ≡ handles_in self.old ++ handle ∷ []) }
        ensures ops { by_number self.new ≡ by_number self.old }
        ensures cancellers { cancellers_in self.new ≡ cancellers_in self.old }
        ensures err { OnErr result (handles_in self.new ≡ handles_in self.old) }
    {
        let number = self.handles.len() as u64;
        self.handles.push(handle)?;
        Ok(number)
    }

    /// The cancel handle of a number, where there is one. (not in monoio)
    pub fn handle(&self, n: usize) -> Option<CancelHandle>
        ensures { result ≡ slice_get (handles_in self.now) n }
    {
        self.handles.get(n).copied()
    }

    /// Spends all tokens. Their operations stay as they are until their driver goes. (not in monoio)
    pub fn forget(self) {
        let Tokens {
            mut ops,
            cancellers: _,
            handles: _,
        } = self;
        while let Some(token) = ops.pop() {
            match token {
                Some(op) => op.forget(),
                None => {}
            }
        }
        ops.destroy_empty();
    }
}
