//! What is asked of files that are looked at.

ghost use Rattle.std.specs.Prelude.{◌≡◌, ◌≢◌, ◌+◌, ◌<◌, ◌++◌, ◌∷◌, [], ℕ, length, take, slice_index, decimal, codes, IfOk, OnOk};
ghost use Rattle.uuid.specs.Text.{hyphenated_text, lower};
ghost use Rattle.tool_files.specs.Lines.{examine_line, examine_lines};

use std::alloc::{AllocError, Global};
use uuid::Uuid;

// Appends the line that asks for a slot's superblock.
fn push_line(text: &mut Vec<u8>, slot: u64) -> Result<(), AllocError>
    ensures { OnOk result (text.new.items ≡ text.old.items ++ examine_line slot) }
{
    let mut buffer = itoa::Buffer::new();
    text.extend_from_slice(b"examine ")?;
    text.extend_from_slice(buffer.format(slot).as_bytes())?;
    text.push(b'\n')?;
    Ok(())
}

/// A script that asks for the superblock of each of so many slots.
pub fn examine_script(alloc: Global, slots: u64) -> Result<Vec<u8>, AllocError>
    ensures { IfOk result (λ text. text.items ≡ examine_lines slots) }
{
    let mut text = Vec::new(alloc);
    for slot in 0..slots {
        push_line(&mut text, slot)?;
    }
    Ok(text)
}

/// A script that assembles the array that has this UUID.
#[tactic(auto, using(crate::proofs::UuidLaws::uuid_length))]
pub fn assemble_script(alloc: Global, uuid: [u8; 16]) -> Result<Vec<u8>, AllocError>
    ensures { IfOk result (λ text. text.items ≡ codes "assemble " ++ hyphenated_text lower uuid ++ 10 ∷ []) }
{
    let mut buffer = Uuid::encode_buffer();
    let named = Uuid::from_bytes(uuid)
        .hyphenated()
        .encode_lower(&mut buffer);
    let mut text = Vec::new(alloc);
    text.extend_from_slice(b"assemble ")?;
    text.extend_from_slice(named.as_bytes())?;
    text.push(b'\n')?;
    Ok(text)
}

/// The first line of a text, with its end, if it has one.
pub fn first_line(text: &[u8]) -> &[u8]
    ensures begins { result.now ≡ take (length result.now) text.now }
    ensures one { (k : ℕ) → k + 1 < length result.now → slice_index result.now k ≢ 10 }
    ensures whole { length result.now < length text.now → (k : ℕ) → length result.now ≡ k + 1 → slice_index result.now k ≡ 10 }
{
    match text.iter().position(|byte| *byte == b'\n') {
        Some(end) => &text[..end + 1],
        None => text,
    }
}
