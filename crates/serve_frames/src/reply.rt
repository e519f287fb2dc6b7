ghost use Rattle.std.specs.Prelude.{◌≡◌, ◌≢◌, Option, IfSome, IfNone};
ghost use Rattle.serve_frames.specs.Errors.{outcome_number};
ghost use Rattle.serve_frames.specs.declared.errors.RequestError.{RequestError};
ghost use Rattle.serve_frames.specs.declared.reply.Reply.{Reply};

use crate::errors::RequestError;
use serve_bytes::{take_u32, take_u64};

const REPLY_MAGIC: u32 = 0x6744_6698;

/// A simple reply. Behind one to a READ without an error come the bytes that were read.
#[derive(Clone, Copy, Debug, PartialEq, Eq)]
pub struct Reply {
    /// The request's.
    pub cookie: u64,
    pub error: Option<RequestError>,
}

// The error of this number, where it is 0 or one of the four.
fn error_of(number: u32) -> Option<Option<RequestError>>
    ensures found { IfSome result (λ e. outcome_number e ≡ number) }
    ensures none { IfNone result ((e : Option RequestError) → outcome_number e ≢ number) }
{
    match number {
        0 => Some(None),
        5 => Some(Some(RequestError::Io)),
        12 => Some(Some(RequestError::NoMemory)),
        22 => Some(Some(RequestError::Invalid)),
        28 => Some(Some(RequestError::NoSpace)),
        _ => None,
    }
}

impl Reply {
    ghost use Rattle.serve_frames.specs.Replies.{reply_bytes};

    // The error's number, or 0 where the request was done.
    fn outcome(&self) -> u32
        ensures { result ≡ outcome_number self.now.error }
    {
        match self.error {
            None => 0,
            Some(error) => error.number(),
        }
    }

    /// The 16 bytes of the reply's header.
    pub fn encode(&self) -> [u8; 16]
        ensures { result ≡ reply_bytes self.now }
    {
        let mut bytes = [0; 16];
        bytes[..4].copy_from_slice(&REPLY_MAGIC.to_be_bytes());
        bytes[4..8].copy_from_slice(&self.outcome().to_be_bytes());
        bytes[8..].copy_from_slice(&self.cookie.to_be_bytes());
        bytes
    }

    /// The reply that these bytes spell; `None` where they spell none.
    pub fn decode(bytes: &[u8; 16]) -> Option<Reply>
        ensures found { IfSome result (λ r. bytes.now ≡ reply_bytes r) }
        ensures none { IfNone result ((r : Reply) → bytes.now ≢ reply_bytes r) }
    {
        let (magic, rest) = take_u32(bytes);
        let (number, rest) = take_u32(rest);
        let (cookie, _) = take_u64(rest);
        if magic != REPLY_MAGIC {
            return None;
        }
        match error_of(number) {
            Some(error) => Some(Reply { cookie, error }),
            None => None,
        }
    }
}
