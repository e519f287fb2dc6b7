ghost use Rattle.std.specs.Prelude.{◌≡◌};

use thiserror::Error;

/// Why a request was not done. The numbers are those of Linux.
#[derive(Clone, Copy, Debug, PartialEq, Eq, Error)]
pub enum RequestError {
    /// 5, `EIO`
    #[error("the array refused it")]
    Io,
    /// 12, `ENOMEM`
    #[error("memory was short")]
    NoMemory,
    /// 22, `EINVAL`
    #[error("it asks for what is not offered")]
    Invalid,
    /// 28, `ENOSPC`
    #[error("it writes past the end")]
    NoSpace,
}

impl RequestError {
    ghost use Rattle.serve_frames.specs.Errors.{error_number};

    pub fn number(self) -> u32
        ensures { result ≡ error_number self }
    {
        match self {
            RequestError::Io => 5,
            RequestError::NoMemory => 12,
            RequestError::Invalid => 22,
            RequestError::NoSpace => 28,
        }
    }
}
