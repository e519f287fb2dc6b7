//! Requests from a source of bytes.

ghost use Rattle.std.specs.Prelude.{◌≡◌, ◌≤◌, ◌++◌, length, IfOk};
ghost use Rattle.serve_frames.specs.Commands.{IsCommand};
ghost use Rattle.serve_bytes.specs.Exact.{Blamed};
ghost use Rattle.serve_frames.specs.Requests.{request_bytes};
ghost use Rattle.serve_frames.specs.Taking.{Taken, PayloadTaken, IsFrame, IsBlamed};

use crate::request::Request;
use script_io::Source;
use serve_bytes::{ReadError, read_exact, skip};
use thiserror::Error;

/// Why there is no further request. The session ends.
#[derive(Clone, Copy, Debug, PartialEq, Eq, Error)]
pub enum FrameError {
    /// Fewer bytes were left than the frame has.
    #[error("the stream ended")]
    Ended,
    /// 28 bytes were taken that are no header.
    #[error("the bytes are no request")]
    NoRequest,
    /// A read failed, and the source's count of faults rose.
    #[error("the stream could not be read")]
    Failed,
}

fn take_head<S: Source>(source: &mut S) -> Result<Request, FrameError>
    ensures taken { Taken S.tells result (S.left source.old) (S.left source.new) (λ r. S.left source.old ≡ request_bytes r ++ S.left source.new) }
    ensures named { IfOk result (λ r. IsCommand r.command) }
    ensures blamed { IsBlamed (S.faults_of source.old) (S.faults_of source.new) result }
{
    let mut head = [0u8; 28];
    match read_exact(source, &mut head) {
        Ok(()) => {}
        Err(ReadError::Ended(_)) => return Err(FrameError::Ended),
        Err(ReadError::Failed) => return Err(FrameError::Failed),
    }
    match Request::decode(&head) {
        Some(request) => Ok(request),
        None => Err(FrameError::NoRequest),
    }
}

// The bytes behind a header: into the buffer's front, or passed over where they are too many for it.
fn take_payload<S: Source>(
    source: &mut S,
    request: &Request,
    payload: &mut [u8],
) -> Result<(), ReadError>
    requires { 1048576 ≤ length payload.old }
    ensures taken { PayloadTaken S.tells result request.now (S.left source.old) (S.left source.new) payload.new }
    ensures blamed { Blamed (S.faults_of source.old) (S.faults_of source.new) result }
{
    let length = request.payload_length();
    if length as usize <= payload.len() {
        read_exact(source, &mut payload[..length as usize])
    } else {
        skip(source, u64::from(length))
    }
}

/// The next request, with the bytes of a WRITE at the front of `payload`, which has room for 1 MiB. Where they are more, they are passed
/// over. No byte behind the frame is taken, so behind a request to disconnect nothing is read.
pub fn take_request<S: Source>(source: &mut S, payload: &mut [u8]) -> Result<Request, FrameError>
    requires { 1048576 ≤ length payload.old }
    ensures taken { Taken S.tells result (S.left source.old) (S.left source.new) (λ r. IsFrame r (S.left source.old) (S.left source.new) payload.new) }
    ensures named { IfOk result (λ r. IsCommand r.command) }
    ensures blamed { IsBlamed (S.faults_of source.old) (S.faults_of source.new) result }
{
    let request = match take_head(source) {
        Ok(request) => request,
        Err(error) => return Err(error),
    };
    match take_payload(source, &request, payload) {
        Ok(()) => Ok(request),
        Err(ReadError::Ended(_)) => Err(FrameError::Ended),
        Err(ReadError::Failed) => Err(FrameError::Failed),
    }
}
