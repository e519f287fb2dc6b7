ghost use Rattle.std.specs.Prelude.{◌≡◌};

use serve_bytes::ReadError;
use thiserror::Error;

/// Why no requests follow a greeting. The session ends.
#[derive(Clone, Copy, Debug, PartialEq, Eq, Error)]
pub enum GreetingEnd {
    /// The client asked to leave, or named an export that there is none of by the option that has no answer for it.
    #[error("the client left")]
    Left,
    /// The source ended amid the greeting.
    #[error("the stream ended")]
    Ended,
    /// Bytes were taken that no client sends.
    #[error("the client is not understood")]
    NotUnderstood,
    /// 1,000 options were answered, and none led to requests.
    #[error("too many options")]
    TooMany,
    /// A read failed, and the source's count of faults rose.
    #[error("the stream could not be read")]
    SourceFailed,
    /// A write failed, and the sink's count of faults rose.
    #[error("the stream could not be written")]
    SinkFailed,
}

impl From<ReadError> for GreetingEnd {
    ghost use Rattle.serve_greeting.specs.Ends.{end_of};

    ghost from_gives = { λ error end. end ≡ end_of error };

    fn from(error: ReadError) -> GreetingEnd {
        match error {
            ReadError::Ended(_) => GreetingEnd::Ended,
            ReadError::Failed => GreetingEnd::SourceFailed,
        }
    }
}
