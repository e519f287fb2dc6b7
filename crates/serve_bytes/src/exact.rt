// Exact reads: no byte behind those that are wanted is taken.
ghost use Rattle.std.specs.Prelude.{◌≡◌, ◌<◌, ◌≤◌, length};
ghost use Rattle.serve_bytes.specs.Exact.{Read, Skipped, Blamed};

use script_io::Source;
use thiserror::Error;

/// Why fewer bytes were read than were wanted.
#[derive(Clone, Copy, Debug, PartialEq, Eq, Error)]
pub enum ReadError {
    /// The source had this many bytes left, fewer than were wanted, and has none now.
    #[error("the stream ended")]
    Ended(u64),
    /// A pull failed, and the source's count of faults rose.
    #[error("the stream could not be read")]
    Failed,
}

/// Fills the whole buffer with the first bytes that are left, and takes just these. At an `Err` the source has given fewer, which
/// stand at the buffer's front; what the buffer holds behind them is left open.
pub fn read_exact<S: Source>(source: &mut S, into: &mut [u8]) -> Result<(), ReadError>
    ensures read { Read S.tells result (S.left source.old) (S.left source.new) into.new }
    ensures blamed { Blamed (S.faults_of source.old) (S.faults_of source.new) result }
{
    let mut done = 0;
    while done < into.len() {
        match source.pull(&mut into[done..]) {
            Ok(0) => return Err(ReadError::Ended(done as u64)),
            Ok(count) => done += count,
            Err(_) => return Err(ReadError::Failed),
        }
    }
    Ok(())
}

/// Passes over so many bytes, and no more.
pub fn skip<S: Source>(source: &mut S, count: u64) -> Result<(), ReadError>
    ensures skipped { Skipped S.tells result (S.left source.old) (S.left source.new) count }
    ensures blamed { Blamed (S.faults_of source.old) (S.faults_of source.new) result }
{
    let mut scratch = [0u8; 4096];
    let mut left = count;
    while left > 0 {
        let some = left.min(4096);
        match read_exact(source, &mut scratch[..some as usize]) {
            Ok(()) => left -= some,
            Err(ReadError::Ended(there)) => return Err(ReadError::Ended(count - left + there)),
            Err(ReadError::Failed) => return Err(ReadError::Failed),
        }
    }
    Ok(())
}
