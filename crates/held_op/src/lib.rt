//! A token that may be let go: where it is, it is forgotten.
#![tactic(auto)]

ghost use Rattle.std.specs.Prelude.{◌≡◌};
ghost use Rattle.driver_core.specs.declared.op.Op.{Op};

use driver_core::Op;
use std::marker::Model;

/// The token of an operation, which may be let go at any time: then it is forgotten, and its operation stays as it is, with its buffer,
/// until its driver ends. So `?` may stand where one is held, and a vector, a map or an option may hold some. A clause sees it as its
/// token. (monoio: `Op`, whose drop drops the operation)
#[derive(Debug)]
pub struct HeldOp {
    op: Op,
}

impl Model for HeldOp {
    ghost use Rattle.driver_core.specs.declared.op.Op.{Op};

    ghost Value = { Op };

    ghost view = { λ held. held.op };
}

impl Drop for HeldOp {
    fn drop(self) {
        let HeldOp { op } = self;
        op.forget();
    }
}

impl HeldOp {
    /// Holds a token.
    pub fn new(op: Op) -> HeldOp
        ensures { result ≡ op }
    {
        HeldOp { op }
    }

    /// The token, to ask of it.
    pub fn op(&self) -> &Op
        ensures { result.now ≡ self.now }
    {
        &self.op
    }

    /// The token, to be polled or dropped.
    pub fn into_op(self) -> Op
        ensures { result ≡ self }
    {
        let HeldOp { op } = self;
        op
    }
}
