ghost use Rattle.std.specs.Prelude.{◌+◌, ◌≤◌, ◌↔◌, IsTrue, IfOk, IfErr};

use crate::command::Command;
use crate::errors::RequestError;
use crate::request::Request;

// The one flag that a request may have.
const FUA: u16 = 1;

const SECTOR: u32 = 512;

// 1 MiB
const MOST: u32 = 1_048_576;

/// What a request asks of the list of sectors.
#[derive(Clone, Copy, Debug, PartialEq, Eq)]
pub enum Task {
    /// The bytes of `count` sectors from `first` on, 1 to 2,048 of them.
    Read {
        first: u64,
        count: u32,
    },
    /// To write as many. `flushed` says that a flush comes before the reply.
    Write {
        first: u64,
        count: u32,
        flushed: bool,
    },
    Flush,
    /// The session ends, with no reply.
    Disconnect,
}

impl Request {
    ghost use Rattle.serve_frames.specs.Tasks.{IsWhole, Asks, IsRefused};

    // Whether it names whole sectors, one at least and 1 MiB at most, and no unknown flag.
    fn is_whole(&self) -> bool
        ensures { IsTrue result ↔ IsWhole self.now }
    {
        self.offset % u64::from(SECTOR) == 0
            && self.length % SECTOR == 0
            && 0 < self.length
            && self.length <= MOST
            && self.flags <= FUA
    }

    // Whether its range lies within a list of so many bytes.
    fn is_inside(&self, size: u64) -> bool
        ensures { IsTrue result ↔ (self.now.offset + self.now.length ≤ size) }
    {
        self.offset <= size && u64::from(self.length) <= size - self.offset
    }

    /// What the request asks of a list of `size` bytes. `Invalid` for an unknown command or flag, a length of 0, above 1 MiB or not of whole
    /// sectors, an offset inside a sector, and a READ past the end; `NoSpace` for a WRITE past the end.
    pub fn task(&self, size: u64) -> Result<Task, RequestError>
        ensures asked { IfOk result (λ t. Asks self.now size t) }
        ensures refused { IfErr result (λ e. IsRefused self.now size e) }
    {
        let first = self.offset / u64::from(SECTOR);
        let count = self.length / SECTOR;
        match self.command {
            Command::Disconnect => Ok(Task::Disconnect),
            Command::Flush if self.flags <= FUA => Ok(Task::Flush),
            Command::Read if self.is_whole() && self.is_inside(size) => {
                Ok(Task::Read { first, count })
            }
            Command::Write if self.is_whole() => {
                if self.is_inside(size) {
                    Ok(Task::Write {
                        first,
                        count,
                        flushed: self.flags == FUA,
                    })
                } else {
                    Err(RequestError::NoSpace)
                }
            }
            _ => Err(RequestError::Invalid),
        }
    }
}
