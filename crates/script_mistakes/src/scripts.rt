//! Why a script isn't taken.

ghost use Rattle.std.specs.Prelude.{◌≡◌, MatchOption, IfSome, IsOk, Err, true};
ghost use Rattle.script.specs.Script.{script_with};
ghost use Rattle.script_mistakes.specs.Reasons.{IsReason, sectors_in};

use script::{
    Diagnosis, MOST_BYTES, MOST_LINES, MOST_SECTORS, Meaning, is_inside_after, read_line,
    without_last_newline,
};

/// What is wrong with the first bad line of a script, or with the whole.
#[derive(Clone, Copy, Debug, PartialEq, Eq)]
pub enum Reason {
    /// The text has more than 1,048,576 bytes.
    TooLong,
    /// The text has more than 65,536 lines.
    TooManyLines,
    /// With this line, more than 262,144 sectors are read and written.
    TooManySectors,
    /// A block is open at the end.
    BlockOpen,
    /// The line means nothing.
    BadLine(Diagnosis),
}

/// The number of a script's first bad line, and what is wrong with it; 0 where the text is too long, and one past the last where a block is open there.
#[derive(Clone, Copy, Debug, PartialEq, Eq)]
pub struct ScriptMistake {
    pub number: u64,
    pub reason: Reason,
}

// How many sectors are read or written by a line of this meaning.
fn sectors_in(meaning: &Meaning) -> u64
    ensures { result ≡ sectors_in meaning.now }
{
    match meaning {
        Meaning::Asks(_, line) => line.sectors(),
        _ => 0,
    }
}

/// Why this script, which may have blocks, isn't taken; nothing exactly where it is.
pub fn diagnose_script(text: &[u8]) -> Option<ScriptMistake>
    ensures line { MatchOption result (IsOk (script_with true text.now)) (λ mistake. script_with true text.now ≡ Err mistake.number) }
    ensures reason { IfSome result (λ mistake. IsReason text.now mistake.number mistake.reason) }
{
    if text.len() > MOST_BYTES {
        let reason = Reason::TooLong;
        return Some(ScriptMistake { number: 0, reason });
    }
    let mut inside = false;
    let mut sectors = 0;
    let mut number = 0;
    for line in without_last_newline(text).split(|byte| *byte == b'\n') {
        number += 1;
        if number > MOST_LINES {
            let reason = Reason::TooManyLines;
            return Some(ScriptMistake { number, reason });
        }
        match read_line(inside, line) {
            Err(diagnosis) => {
                let reason = Reason::BadLine(diagnosis);
                return Some(ScriptMistake { number, reason });
            }
            Ok(meaning) => {
                inside = is_inside_after(inside, meaning);
                sectors += sectors_in(&meaning);
                if sectors > MOST_SECTORS {
                    let reason = Reason::TooManySectors;
                    return Some(ScriptMistake { number, reason });
                }
            }
        }
    }
    if inside {
        let reason = Reason::BlockOpen;
        return Some(ScriptMistake {
            number: number + 1,
            reason,
        });
    }
    None
}
