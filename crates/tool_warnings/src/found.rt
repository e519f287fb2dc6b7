//! What a file was found to hold, in lines.

ghost use Rattle.std.specs.Prelude.{◌≡◌, ◌++◌, OnOk};
ghost use Rattle.uuid.specs.Text.{hyphenated_text, lower};
ghost use Rattle.tool_warnings.specs.Systems.{all_systems, system_in};
ghost use Rattle.tool_warnings.specs.Fronts.{superblock_at};
ghost use Rattle.tool_warnings.specs.Founds.{found_by, found_in, found_words, found_line};
ghost use Rattle.tool_warnings.specs.declared.found.Found.TheVariants.{Member, Other};

use crate::fronts::superblock_in;
use crate::parts::{push_named, push_numbered};
use crate::systems::{System, system_in, words_of};
use sb_codec::Sb;
use std::alloc::AllocError;
use uuid::Uuid;

/// What a file holds that somebody may want to keep: a member of an array, or something else.
#[derive(Clone, Copy, Debug, PartialEq, Eq)]
pub enum Found {
    Member([u8; 16]),
    Other(System),
}

// By the superblock and the magic that were found.
fn found_by(superblock: Option<Sb>, system: Option<System>) -> Option<Found>
    ensures { result ≡ found_by superblock system }
{
    match (superblock, system) {
        (Some(sb), _) => Some(Found::Member(sb.set_uuid)),
        (None, Some(system)) => Some(Found::Other(system)),
        (None, None) => None,
    }
}

/// What a file holds, by its first bytes.
#[tactic(auto, unfolding(crate::specs::Founds::found_in))]
pub fn found_in(front: &[u8]) -> Option<Found>
    ensures { result ≡ found_in front.now }
{
    found_by(superblock_in(front), system_in(front))
}

/// Appends an array's UUID.
#[tactic(auto, using(crate::proofs::UuidLaws::uuid_length))]
pub fn push_uuid(into: &mut Vec<u8>, uuid: [u8; 16]) -> Result<(), AllocError>
    ensures { OnOk result (into.new.items ≡ into.old.items ++ hyphenated_text lower uuid) }
{
    let mut buffer = Uuid::encode_buffer();
    let named = Uuid::from_bytes(uuid)
        .hyphenated()
        .encode_lower(&mut buffer);
    into.extend_from_slice(named.as_bytes())?;
    Ok(())
}

// Appends that it is a member.
fn push_member(into: &mut Vec<u8>, uuid: [u8; 16]) -> Result<(), AllocError>
    ensures { OnOk result (into.new.items ≡ into.old.items ++ found_words (Member uuid)) }
{
    into.extend_from_slice(b"be a member of array ")?;
    push_uuid(into, uuid)?;
    Ok(())
}

// Appends what else it holds.
fn push_system(into: &mut Vec<u8>, system: System) -> Result<(), AllocError>
    ensures { OnOk result (into.new.items ≡ into.old.items ++ found_words (Other system)) }
{
    into.extend_from_slice(b"hold ")?;
    into.extend_from_slice(words_of(system).as_bytes())?;
    Ok(())
}

// Appends what it is.
fn push_words(into: &mut Vec<u8>, found: Found) -> Result<(), AllocError>
    ensures { OnOk result (into.new.items ≡ into.old.items ++ found_words found) }
{
    match found {
        Found::Member(uuid) => push_member(into, uuid),
        Found::Other(system) => push_system(into, system),
    }
}

/// Appends the line that tells it of a slot.
pub fn push_found(into: &mut Vec<u8>, slot: u64, path: &str, found: Found) -> Result<(), AllocError>
    ensures { OnOk result (into.new.items ≡ into.old.items ++ found_line slot path.now found) }
{
    push_numbered(into, "mdgrow: slot ", slot)?;
    push_named(into, " (", path, ") appears to ")?;
    push_words(into, found)?;
    into.push(b'\n')?;
    Ok(())
}
