ghost use Rattle.std.specs.Prelude.{◌≤◌, length};
ghost use Rattle.serve_greeting.specs.Talk.{Hello, Greeted, IsSourceBlamed, IsSinkBlamed};

use crate::end::GreetingEnd;
use crate::turn::turn;
use script_io::{Sink, Source};
use serve_bytes::{read_exact, take_u32};

// Greets the client, and says whether it wants zeroes behind the answer to EXPORT_NAME.
fn hello<S: Source, K: Sink>(source: &mut S, sink: &mut K) -> Result<bool, GreetingEnd>
    ensures hello { Hello S.tells K.tells result (S.left source.old) (S.left source.new) (K.taken sink.old) (K.taken sink.new) }
    ensures source { IsSourceBlamed (S.faults_of source.old) (S.faults_of source.new) result }
    ensures sink { IsSinkBlamed (K.faults_of sink.old) (K.faults_of sink.new) result }
{
    // The last two bytes say: fixed newstyle, and no zeroes where the client agrees.
    match sink.push(b"NBDMAGICIHAVEOPT\x00\x03") {
        Ok(()) => {}
        Err(_) => return Err(GreetingEnd::SinkFailed),
    }
    let mut flags = [0u8; 4];
    match read_exact(source, &mut flags) {
        Ok(()) => {}
        Err(error) => return Err(GreetingEnd::from(error)),
    }
    let (said, _) = take_u32(&flags);
    match said {
        1 => Ok(true),
        3 => Ok(false),
        _ => Err(GreetingEnd::NotUnderstood),
    }
}

/// Greets a client and answers its options, up to the one that leads to requests, for an export of `size` bytes. `content` has room for
/// 64 KiB, the most that an option may bring. No byte behind the last option is taken, and none is written behind its answer.
pub fn greet<S: Source, K: Sink>(
    source: &mut S,
    sink: &mut K,
    size: u64,
    content: &mut [u8],
) -> Result<(), GreetingEnd>
    requires { 65536 ≤ length content.old }
    ensures greeted { Greeted S.tells K.tells size result (S.left source.old) (S.left source.new) (K.taken sink.old) (K.taken sink.new) }
    ensures source { IsSourceBlamed (S.faults_of source.old) (S.faults_of source.new) result }
    ensures sink { IsSinkBlamed (K.faults_of sink.old) (K.faults_of sink.new) result }
{
    let zeroes = match hello(source, sink) {
        Ok(zeroes) => zeroes,
        Err(end) => return Err(end),
    };
    for _ in 0..1_000u32 {
        match turn(source, sink, content, size, zeroes) {
            Ok(true) => return Ok(()),
            Ok(false) => {}
            Err(end) => return Err(end),
        }
    }
    Err(GreetingEnd::TooMany)
}
