//! Sockets of this machine, through `mio`, as an object whose calls don't wait.
#![tactic(auto)]

pub mod mio_io;

pub use mio_io::MioIo;
