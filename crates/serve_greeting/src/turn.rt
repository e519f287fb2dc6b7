//! One option and its answer.

ghost use Rattle.std.specs.Prelude.{◌≤◌, length};
ghost use Rattle.serve_greeting.specs.Talk.{Turned, IsSourceBlamed, IsSinkBlamed};

use crate::answers::push_answer;
use crate::asked::{Next, asked_by};
use crate::end::GreetingEnd;
use crate::taking::take_option;
use script_io::{Sink, Source};

/// Answers the next option, and says whether requests follow. `content` has room for an option's content.
pub fn turn<S: Source, K: Sink>(
    source: &mut S,
    sink: &mut K,
    content: &mut [u8],
    size: u64,
    zeroes: bool,
) -> Result<bool, GreetingEnd>
    requires { 65536 ≤ length content.old }
    ensures turned { Turned S.tells K.tells size zeroes result (S.left source.old) (S.left source.new) (K.taken sink.old) (K.taken sink.new) }
    ensures source { IsSourceBlamed (S.faults_of source.old) (S.faults_of source.new) result }
    ensures sink { IsSinkBlamed (K.faults_of sink.old) (K.faults_of sink.new) result }
{
    let said = match take_option(source, content) {
        Ok(said) => said,
        Err(end) => return Err(end),
    };
    let asked = asked_by(said.option, &content[..said.length]);
    match push_answer(sink, asked, size, zeroes) {
        Ok(()) => {}
        Err(_) => return Err(GreetingEnd::SinkFailed),
    }
    match asked.next() {
        Next::Option => Ok(false),
        Next::Requests => Ok(true),
        Next::End => Err(GreetingEnd::Left),
    }
}
