//! What the options ask.

ghost use Rattle.std.specs.Prelude.{◌≡◌, List, ℕ, IfSome, IfNone};
ghost use Rattle.serve_greeting.specs.Options.{Names, IsNamed, IsAsked, error_number, next_of};

use serve_bytes::{take_u16, take_u32};

const EXPORT_NAME: u32 = 1;

const ABORT: u32 = 2;

const LIST: u32 = 3;

const INFO: u32 = 6;

const GO: u32 = 7;

/// Why an option is refused.
#[derive(Clone, Copy, Debug, PartialEq, Eq)]
pub enum OptionError {
    /// The server has no such option.
    Unsupported,
    /// The option's content is not of its form.
    Invalid,
    /// There is no export of this name.
    Unknown,
}

impl OptionError {
    pub fn number(self) -> u32
        ensures { result ≡ error_number self }
    {
        match self {
            OptionError::Unsupported => 0x8000_0001,
            OptionError::Invalid => 0x8000_0003,
            OptionError::Unknown => 0x8000_0006,
        }
    }
}

/// What an option asks of a server with one export, whose name is empty.
#[derive(Clone, Copy, Debug, PartialEq, Eq)]
pub enum Asked {
    /// The export, by EXPORT_NAME. Requests follow.
    Export,
    /// Another export, by EXPORT_NAME. It has no answer, so the session ends.
    OtherExport,
    /// The session ends.
    Abort,
    /// The names of the exports.
    List,
    /// What there is to know of the export.
    Info,
    /// The same, and the export. Requests follow.
    Go,
    /// An error is the answer.
    Refused { option: u32, error: OptionError },
}

/// What comes behind the answer to an option.
#[derive(Clone, Copy, Debug, PartialEq, Eq)]
pub enum Next {
    Option,
    Requests,
    End,
}

impl Asked {
    pub fn next(self) -> Next
        ensures { result ≡ next_of self }
    {
        match self {
            Asked::Export | Asked::Go => Next::Requests,
            Asked::OtherExport | Asked::Abort => Next::End,
            Asked::List | Asked::Info | Asked::Refused { .. } => Next::Option,
        }
    }
}

// The name in the content of INFO or GO: its length, the name, how many items are wished for, and two bytes for each. All are told anyway.
fn name_in(content: &[u8]) -> Option<&[u8]>
    ensures found { IfSome result (λ name. Names content.now name.now) }
    ensures none { IfNone result ((name : List ℕ) → Names content.now name → ⊥) }
{
    if content.len() < 6 {
        return None;
    }
    let (length, rest) = take_u32(content);
    let length = length as usize;
    if rest.len() - 2 < length {
        return None;
    }
    let (name, rest) = rest.split_at(length);
    let (count, wishes) = take_u16(rest);
    if wishes.len() != 2 * count as usize {
        return None;
    }
    Some(name)
}

// What INFO or GO asks: the export, or it is refused.
fn named(option: u32, content: &[u8], asked: Asked) -> Asked
    ensures { IsNamed option content.now asked result }
{
    match name_in(content) {
        None => Asked::Refused {
            option,
            error: OptionError::Invalid,
        },
        Some(name) if !name.is_empty() => Asked::Refused {
            option,
            error: OptionError::Unknown,
        },
        Some(_) => asked,
    }
}

/// What the option of this number asks by this content.
pub fn asked_by(option: u32, content: &[u8]) -> Asked
    ensures { IsAsked option content.now result }
{
    match option {
        EXPORT_NAME if content.is_empty() => Asked::Export,
        EXPORT_NAME => Asked::OtherExport,
        ABORT => Asked::Abort,
        LIST if content.is_empty() => Asked::List,
        LIST => Asked::Refused {
            option,
            error: OptionError::Invalid,
        },
        INFO => named(option, content, Asked::Info),
        GO => named(option, content, Asked::Go),
        _ => Asked::Refused {
            option,
            error: OptionError::Unsupported,
        },
    }
}
