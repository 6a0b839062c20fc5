// What a client says, and what it was answered.
use net_server::{Answer, Lines};
use rent_buf::OutOfMemory;
use std::alloc::Global;

/// What is still to be said, the last line first, and what was answered.
#[derive(Drop)]
pub struct Talk {
    /// What is still to be said.
    pub says: Vec<Vec<u8>>,
    /// What was answered.
    pub answers: Vec<String>,
}

impl Lines for Talk {
    fn new(alloc: Global) -> Result<Talk, OutOfMemory> {
        let (says, answers) = (Vec::new(alloc), Vec::new(alloc));
        Ok(Talk { says, answers })
    }

    fn begin(&mut self) -> Option<Vec<u8>> {
        self.says.pop()
    }

    fn answer(&mut self, line: String) -> Answer {
        let _ = self.answers.push(line);
        match self.says.pop() {
            Some(line) => Answer::Write(line),
            None => Answer::Done,
        }
    }
}
