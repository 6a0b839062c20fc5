// What a connection does with a line, and when the server has ended.
use net_server::{Answer, ByLines, NetEnd, Turn, Watch};
use rent_buf::OutOfMemory;
use std::alloc::Global;

/// Answers each line in capitals.
#[derive(Drop)]
pub struct Capitals;

/// What each connection does.
pub type Lines = ByLines<Capitals>;

impl net_server::Lines for Capitals {
    fn new(_alloc: Global) -> Result<Capitals, OutOfMemory> {
        Ok(Capitals)
    }

    fn begin(&mut self) -> Option<Vec<u8>> {
        None
    }

    fn answer(&mut self, line: String) -> Answer {
        let mut bytes = line.into_bytes();
        bytes.make_ascii_uppercase();
        Answer::Write(bytes)
    }
}

/// How many connections are to end.
#[derive(Drop)]
pub struct Left(pub u64);

impl Watch<Lines> for Left {
    fn watch(&mut self, _open: usize, turn: Turn<Lines>) -> bool {
        for (_, end) in turn.ended {
            if let NetEnd::Ended(_) = end {
                self.0 = self.0.saturating_sub(1);
            }
        }
        self.0 > 0
    }
}
