//! Options from a source of bytes.

ghost use Rattle.std.specs.Prelude.{◌≡◌, ◌≤◌, length, IfOk, IfSome, IfNone};
ghost use Rattle.serve_greeting.specs.Options.{option_head};
ghost use Rattle.serve_greeting.specs.Talk.{IsNoHead, OptionTaken, IsSourceBlamed};

use crate::end::GreetingEnd;
use script_io::Source;
use serve_bytes::{read_exact, take_u32, take_u64};

const OPTION_MAGIC: u64 = 0x4948_4156_454F_5054;

// 64 KiB
const MOST: u32 = 65_536;

/// An option of the client, by its number. Its content is that many bytes at the front of a buffer.
#[derive(Clone, Copy, Debug, PartialEq, Eq)]
pub struct Said {
    pub option: u32,
    pub length: usize,
}

// The option and the length of a head's 16 bytes; `None` where they are no head of up to 64 KiB.
fn head_in(head: &[u8; 16]) -> Option<Said>
    ensures found { IfSome result (λ s. (head.now ≡ option_head s.option s.length) × (s.length ≤ 65536)) }
    ensures none { IfNone result (IsNoHead head.now) }
{
    let (magic, rest) = take_u64(head);
    let (option, rest) = take_u32(rest);
    let (length, _) = take_u32(rest);
    if magic != OPTION_MAGIC {
        return None;
    }
    if length > MOST {
        return None;
    }
    Some(Said {
        option,
        length: length as usize,
    })
}

/// The next option, with its content at the front of `content`. No byte behind it is taken.
pub fn take_option<S: Source>(source: &mut S, content: &mut [u8]) -> Result<Said, GreetingEnd>
    requires { 65536 ≤ length content.old }
    ensures taken { OptionTaken S.tells result (S.left source.old) (S.left source.new) content.new }
    ensures within { IfOk result (λ s. s.length ≤ length content.new) }
    ensures blamed { IsSourceBlamed (S.faults_of source.old) (S.faults_of source.new) result }
{
    let mut head = [0u8; 16];
    match read_exact(source, &mut head) {
        Ok(()) => {}
        Err(error) => return Err(GreetingEnd::from(error)),
    }
    let Some(said) = head_in(&head) else {
        return Err(GreetingEnd::NotUnderstood);
    };
    match read_exact(source, &mut content[..said.length]) {
        Ok(()) => Ok(said),
        Err(error) => Err(GreetingEnd::from(error)),
    }
}
