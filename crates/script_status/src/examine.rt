//! The text of `examine`.

ghost use Rattle.std.specs.Prelude.{length, Some};
ghost use Rattle.uuid.specs.Text.{hyphenated_text, lower};
ghost use Rattle.script.specs.Appends.{Appends, AppendsFew};
ghost use Rattle.script_status.specs.Texts.{entry_text, examined_text, fields_text, found_text, owner_text};

use crate::words::{clean_name, push_counted, push_number, push_words};
use script::{Sb, entry_of, is_clean};
use std::alloc::AllocError;
use uuid::Uuid;

/// Appends what was found in a slot, in one line, less its end.
pub fn push_examined(text: &mut Vec<u8>, slot: u32, found: &Option<Sb>) -> Result<(), AllocError>
    ensures appended { Appends text.old text.new result (examined_text slot found.now) }
    ensures short { AppendsFew 500 text.old text.new result }
{
    push_counted(text, "slot ", u64::from(slot))?;
    push_found(text, found)
}

fn push_found(text: &mut Vec<u8>, found: &Option<Sb>) -> Result<(), AllocError>
    ensures appended { Appends text.old text.new result (found_text found.now) }
    ensures short { AppendsFew 450 text.old text.new result }
{
    match found {
        Some(sb) => push_superblock(text, sb),
        None => push_words(text, " no superblock"),
    }
}

fn push_superblock(text: &mut Vec<u8>, sb: &Sb) -> Result<(), AllocError>
    ensures appended { Appends text.old text.new result (found_text (Some sb.now)) }
    ensures short { AppendsFew 450 text.old text.new result }
{
    push_owner(text, sb)?;
    push_fields(text, sb)?;
    push_words(text, " ")?;
    push_words(text, clean_name(is_clean(sb)))
}

fn push_owner(text: &mut Vec<u8>, sb: &Sb) -> Result<(), AllocError>
    ensures appended { Appends text.old text.new result (owner_text sb.now) }
    ensures short { AppendsFew 110 text.old text.new result }
{
    push_words(text, " array ")?;
    push_uuid(text, sb.set_uuid)?;
    push_counted(text, " dev ", u64::from(sb.dev_number))?;
    push_words(text, " role ")?;
    push_entry(text, entry_of(sb, sb.dev_number))
}

#[tactic(auto, using(crate::proofs::UuidLaws::uuid_length))]
fn push_uuid(text: &mut Vec<u8>, uuid: [u8; 16]) -> Result<(), AllocError>
    ensures appended { Appends text.old text.new result (hyphenated_text lower uuid) }
    ensures short { AppendsFew 36 text.old text.new result }
{
    let mut buffer = Uuid::encode_buffer();
    push_words(
        text,
        Uuid::from_bytes(uuid)
            .hyphenated()
            .encode_lower(&mut buffer),
    )
}

fn push_entry(text: &mut Vec<u8>, entry: u16) -> Result<(), AllocError>
    ensures appended { Appends text.old text.new result (entry_text entry) }
    ensures short { AppendsFew 20 text.old text.new result }
{
    match entry {
        0xffff => push_words(text, "spare"),
        0xfffe => push_words(text, "faulty"),
        role => push_number(text, u64::from(role)),
    }
}

fn push_fields(text: &mut Vec<u8>, sb: &Sb) -> Result<(), AllocError>
    ensures appended { Appends text.old text.new result (fields_text sb.now) }
    ensures short { AppendsFew 230 text.old text.new result }
{
    push_counted(text, " events ", sb.events)?;
    push_counted(text, " level ", u64::from(sb.level))?;
    push_counted(text, " layout ", u64::from(sb.layout))?;
    push_counted(text, " chunk ", u64::from(sb.chunksize))?;
    push_counted(text, " disks ", u64::from(sb.raid_disks))?;
    push_counted(text, " size ", sb.size)?;
    push_counted(text, " features ", u64::from(sb.feature_map))
}
