//! The answers to the options.

ghost use Rattle.std.specs.Prelude.{◌≡◌, ◌<◌, ◌^◌, ◌++◌, [], length};
ghost use Rattle.script_io.specs.Causes.{HasCause};
ghost use Rattle.script_io.specs.Moves.{Pushed};
ghost use Rattle.serve_greeting.specs.Answers.{reply_head, reply, export, export_info, sizes_info, told, listed, zeroes_where, answer_to};

use crate::asked::Asked;
use script_io::{Sink, SinkFault};

const REPLY_MAGIC: u64 = 0x0003_E889_0455_65A9;

const ACK: u32 = 1;

const SERVER: u32 = 2;

const INFO: u32 = 3;

// What may be sent: HAS_FLAGS, SEND_FLUSH and SEND_FUA.
const EXPORT_FLAGS: u16 = 0b1101;

// The item of INFO that gives the least, the preferred and the greatest length of a request.
const BLOCK_SIZES: u16 = 3;

fn head(option: u32, kind: u32, length: u32) -> [u8; 20]
    ensures { result ≡ reply_head option kind length }
{
    let mut bytes = [0; 20];
    bytes[..8].copy_from_slice(&REPLY_MAGIC.to_be_bytes());
    bytes[8..12].copy_from_slice(&option.to_be_bytes());
    bytes[12..16].copy_from_slice(&kind.to_be_bytes());
    bytes[16..].copy_from_slice(&length.to_be_bytes());
    bytes
}

fn size_and_flags(size: u64) -> [u8; 10]
    ensures { result ≡ export size }
{
    let mut bytes = [0; 10];
    bytes[..8].copy_from_slice(&size.to_be_bytes());
    bytes[8..].copy_from_slice(&EXPORT_FLAGS.to_be_bytes());
    bytes
}

fn export_item(size: u64) -> [u8; 12]
    ensures { result ≡ export_info size }
{
    let mut bytes = [0; 12];
    bytes[2..].copy_from_slice(&size_and_flags(size));
    bytes
}

fn sizes_item() -> [u8; 14]
    ensures { result ≡ sizes_info }
{
    let mut bytes = [0; 14];
    bytes[..2].copy_from_slice(&BLOCK_SIZES.to_be_bytes());
    bytes[2..6].copy_from_slice(&512u32.to_be_bytes());
    bytes[6..10].copy_from_slice(&4_096u32.to_be_bytes());
    bytes[10..].copy_from_slice(&1_048_576u32.to_be_bytes());
    bytes
}

fn push_reply<K: Sink>(
    sink: &mut K,
    option: u32,
    kind: u32,
    content: &[u8],
) -> Result<(), SinkFault>
    requires { length content.now < 2 ^ 32 }
    ensures pushed { Pushed K.tells result (K.taken sink.old) (K.taken sink.new) (reply option kind content.now) }
    ensures cause { HasCause (K.faults_of sink.old) (K.faults_of sink.new) result }
{
    sink.push(&head(option, kind, content.len() as u32))?;
    sink.push(content)
}

fn push_told<K: Sink>(sink: &mut K, option: u32, size: u64) -> Result<(), SinkFault>
    ensures pushed { Pushed K.tells result (K.taken sink.old) (K.taken sink.new) (told option size) }
    ensures cause { HasCause (K.faults_of sink.old) (K.faults_of sink.new) result }
{
    push_reply(sink, option, INFO, &export_item(size))?;
    push_reply(sink, option, INFO, &sizes_item())?;
    push_reply(sink, option, ACK, &[])
}

// One export, whose name has no bytes.
fn push_list<K: Sink>(sink: &mut K) -> Result<(), SinkFault>
    ensures pushed { Pushed K.tells result (K.taken sink.old) (K.taken sink.new) listed }
    ensures cause { HasCause (K.faults_of sink.old) (K.faults_of sink.new) result }
{
    push_reply(sink, 3, SERVER, &[0; 4])?;
    push_reply(sink, 3, ACK, &[])
}

// The answer to EXPORT_NAME, which is no reply of the usual form.
fn push_export<K: Sink>(sink: &mut K, size: u64, zeroes: bool) -> Result<(), SinkFault>
    ensures pushed { Pushed K.tells result (K.taken sink.old) (K.taken sink.new) (export size ++ zeroes_where zeroes) }
    ensures cause { HasCause (K.faults_of sink.old) (K.faults_of sink.new) result }
{
    sink.push(&size_and_flags(size))?;
    if zeroes { sink.push(&[0; 124]) } else { Ok(()) }
}

/// Writes the answer to an option, for an export of `size` bytes, or at an `Err` a first part of it. `zeroes` says that the client wants 124
/// zeroes behind the answer to EXPORT_NAME.
pub fn push_answer<K: Sink>(
    sink: &mut K,
    asked: Asked,
    size: u64,
    zeroes: bool,
) -> Result<(), SinkFault>
    ensures pushed { Pushed K.tells result (K.taken sink.old) (K.taken sink.new) (answer_to size zeroes asked) }
    ensures cause { HasCause (K.faults_of sink.old) (K.faults_of sink.new) result }
{
    match asked {
        Asked::Export => push_export(sink, size, zeroes),
        Asked::OtherExport => Ok(()),
        Asked::Abort => push_reply(sink, 2, ACK, &[]),
        Asked::List => push_list(sink),
        Asked::Info => push_told(sink, 6, size),
        Asked::Go => push_told(sink, 7, size),
        Asked::Refused { option, error } => push_reply(sink, option, error.number(), &[]),
    }
}
