//! A file in memory, which fails at the calls that it is told to.
ghost use Rattle.std.specs.Prelude.{◌≡◌, ◌+◌, ◌≤◌, ◌-◌, ◌++◌, [], length, take, drop, replicate, true, None, IfOk, OnOk, OnErr};
ghost use Rattle.rent_io.specs.Counts.{AfterCall, no_counts};
ghost use Rattle.rent_buf.specs.declared.fault.IoFault.TheVariants.{OutOfMemory as no_memory};
ghost use Rattle.rent_io.specs.Polls.{Fails};
ghost use Rattle.rent_io.specs.FileAt.{written_at};

use crate::async_rent_at::{AsyncReadRentAt, AsyncWriteRentAt};
use crate::poll::PollBuf;
use rent_buf::{IoBuf, IoBufMut, IoFault, NumList, OutOfMemory};
use std::alloc::Global;
use std::marker::Model;

/// A file in memory that is read and written at positions (not in monoio). It never pauses. A clause sees its bytes and its
/// counts.
#[derive(Debug, Drop)]
pub struct MemFile {
    bytes: Vec<u8>,
    failing: NumList,
    faults: u64,
    fault: Option<IoFault>,
    calls: u64,
}

impl Model for MemFile {
    ghost use Rattle.rent_io.specs.Counts.{no_counts};
    ghost use Rattle.rent_io.specs.FileAt.{FileAt};

    ghost Value = { FileAt };

    ghost view = { λ f. record {
      bytes = f.bytes.items;
      counts = record no_counts
          { faults = f.faults; fault = f.fault; calls = f.calls };
    } };
}

impl MemFile {
    /// An empty file, whose calls of the numbers in `failing`, counted from 0 over reads and writes, fail.
    pub fn new(alloc: Global, failing: NumList) -> MemFile
        ensures { result ≡ record { bytes = []; counts = no_counts } }
    {
        MemFile {
            bytes: Vec::new(alloc),
            failing,
            faults: 0,
            fault: None,
            calls: 0,
        }
    }

    /// Its bytes.
    pub fn bytes(&self) -> &[u8]
        ensures { result.now ≡ self.now.bytes }
    {
        self.bytes.as_slice()
    }

    // Counts a call, and says whether it is to fail, which is this fault.
    fn fails(&mut self, fault: IoFault) -> bool
        ensures bytes { self.new.bytes ≡ self.old.bytes }
        ensures counts { AfterCall None self.old.counts self.new.counts }
        ensures fails { result ≡ true → Fails self.old.counts self.new.counts fault }
    {
        let call = self.calls;
        self.calls = call.saturating_add(1);
        if self.failing.as_slice().contains(&call) {
            self.faults = self.faults.saturating_add(1);
            self.fault = Some(fault);
            return true;
        }
        false
    }

    // Writes bytes from a position on. If memory runs out, that is a fault, and the bytes are as they were.
    fn write(&mut self, pos: usize, bytes: &[u8]) -> Result<(), OutOfMemory>
        ensures ok { OnOk result (self.new ≡ record self.old { bytes = written_at self.old.bytes pos bytes.now }) }
        ensures err { OnErr result (self.new ≡ record self.old
            { counts = record self.old.counts { faults = self.new.counts.faults; fault = self.new.counts.fault } }) }
        ensures faults { self.old.counts.faults ≤ self.new.counts.faults }
        ensures fails { OnErr result (Fails self.old.counts self.new.counts no_memory) }
    {
        match overwritten(&self.bytes, pos, bytes) {
            Ok(next) => {
                self.bytes = next;
                Ok(())
            }
            Err(OutOfMemory) => {
                self.faults = self.faults.saturating_add(1);
                self.fault = Some(IoFault::OutOfMemory);
                Err(OutOfMemory)
            }
        }
    }
}

impl AsyncReadRentAt for MemFile {
    ghost tells = { true };

    ghost file = { λ f. f };

    /// One read. `ReadFault` where it fails.
    #[tactic(auto, using(crate::proofs::Fronts::taken_front))]
    fn poll_read_at<T: IoBufMut>(&mut self, buf: T, pos: u64, _task: u64) -> PollBuf<T> {
        if self.fails(IoFault::ReadFault) {
            return PollBuf::Ready(Err(IoFault::ReadFault), buf);
        }
        let mut buf = buf;
        let left = from(&self.bytes, pos as usize);
        let count = buf.bytes_total().min(left.len());
        let (front, _) = left.split_at(count);
        buf.store(0, front);
        PollBuf::Ready(Ok(count), buf)
    }
}

impl AsyncWriteRentAt for MemFile {
    ghost tells = { true };

    ghost file = { λ f. f };

    /// One write of all bytes. `WriteFault` where it fails, and `OutOfMemory` where memory runs out.
    #[tactic(auto, using(crate::proofs::Files::all_written))]
    fn poll_write_at<T: IoBuf>(&mut self, buf: T, pos: u64, _task: u64) -> PollBuf<T> {
        if self.fails(IoFault::WriteFault) {
            return PollBuf::Ready(Err(IoFault::WriteFault), buf);
        }
        match self.write(pos as usize, buf.bytes()) {
            Ok(()) => PollBuf::Ready(Ok(buf.bytes_init()), buf),
            Err(OutOfMemory) => PollBuf::Ready(Err(IoFault::OutOfMemory), buf),
        }
    }
}

// The bytes before a position.
fn before(bytes: &[u8], pos: usize) -> &[u8]
    ensures { result.now ≡ take pos bytes.now }
{
    &bytes[..pos.min(bytes.len())]
}

// The bytes from a position on.
fn from(bytes: &[u8], pos: usize) -> &[u8]
    ensures { result.now ≡ drop pos bytes.now }
{
    &bytes[pos.min(bytes.len())..]
}

// The bytes of a file with others written over them from a position on, and 0 where bytes are missing before it.
#[tactic(auto, using(crate::proofs::Files::laid_over))]
fn overwritten(file: &Vec<u8>, pos: usize, bytes: &[u8]) -> Result<Vec<u8>, OutOfMemory>
    ensures { IfOk result (λ next. next.items ≡ written_at file.now.items pos bytes.now) }
{
    let alloc = *file.allocator();
    if bytes.is_empty() {
        return Ok(file.as_slice().to_vec(alloc)?);
    }
    let mut next = before(file, pos).to_vec(alloc)?;
    grow_to(&mut next, pos)?;
    next.extend_from_slice(bytes)?;
    next.extend_from_slice(from(from(file, pos), bytes.len()))?;
    Ok(next)
}

// Zeros join the bytes, up to a length; a length that they have changes nothing.
fn grow_to(bytes: &mut Vec<u8>, len: usize) -> Result<(), OutOfMemory>
    ensures { OnOk result (bytes.new.items ≡ bytes.old.items ++ replicate (len - length bytes.old.items) 0) }
{
    if len > bytes.len() {
        bytes.resize(len, 0)?;
    }
    Ok(())
}
