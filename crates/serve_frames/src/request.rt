ghost use Rattle.std.specs.Prelude.{◌≡◌, ◌≢◌, IfSome, IfNone};
ghost use Rattle.serve_frames.specs.declared.request.Request.{Request};

use crate::command::Command;
use serve_bytes::{take_u16, take_u32, take_u64};

const REQUEST_MAGIC: u32 = 0x2560_9513;

/// A request of the client. Behind one to WRITE come as many bytes as its length says.
#[derive(Clone, Copy, Debug, PartialEq, Eq)]
pub struct Request {
    /// Bit 0 asks that what is written be flushed before the reply (FUA).
    pub flags: u16,
    pub command: Command,
    /// The client's name for the request, which the reply repeats.
    pub cookie: u64,
    /// In bytes.
    pub offset: u64,
    /// In bytes.
    pub length: u32,
}

impl Request {
    ghost use Rattle.serve_frames.specs.Requests.{request_bytes};
    ghost use Rattle.serve_frames.specs.Commands.{IsCommand, payload_length};

    /// The 28 bytes of the request's header.
    pub fn encode(&self) -> [u8; 28]
        ensures { result ≡ request_bytes self.now }
    {
        let mut bytes = [0; 28];
        bytes[..4].copy_from_slice(&REQUEST_MAGIC.to_be_bytes());
        bytes[4..6].copy_from_slice(&self.flags.to_be_bytes());
        bytes[6..8].copy_from_slice(&self.command.number().to_be_bytes());
        bytes[8..16].copy_from_slice(&self.cookie.to_be_bytes());
        bytes[16..24].copy_from_slice(&self.offset.to_be_bytes());
        bytes[24..].copy_from_slice(&self.length.to_be_bytes());
        bytes
    }

    /// The request whose header these bytes are; `None` where they are none, that is, where the magic is another.
    pub fn decode(bytes: &[u8; 28]) -> Option<Request>
        ensures found { IfSome result (λ r. bytes.now ≡ request_bytes r) }
        ensures named { IfSome result (λ r. IsCommand r.command) }
        ensures none { IfNone result ((r : Request) → bytes.now ≢ request_bytes r) }
    {
        let (magic, rest) = take_u32(bytes);
        let (flags, rest) = take_u16(rest);
        let (number, rest) = take_u16(rest);
        let (cookie, rest) = take_u64(rest);
        let (offset, rest) = take_u64(rest);
        let (length, _) = take_u32(rest);
        if magic != REQUEST_MAGIC {
            return None;
        }
        let command = Command::of(number);
        Some(Request {
            flags,
            command,
            cookie,
            offset,
            length,
        })
    }
    /// How many bytes stand behind the header.
    pub fn payload_length(&self) -> u32
        ensures { result ≡ payload_length self.now.command self.now.length }
    {
        match self.command {
            Command::Write => self.length,
            _ => 0,
        }
    }
}
