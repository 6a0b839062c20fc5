// What the calls of the completion driver do where memory is at hand, over rings that fail, are busy or lie too.
pub(crate) mod asks;
pub(crate) mod bench;
mod faults;
mod late;
mod memory;
mod park;
mod rings;
mod script;
pub(crate) mod stage;
pub(crate) mod steps;
