//! Fields outside their limits.

ghost use Rattle.std.specs.Prelude.{◌≡◌, ◌==◌, ◌&&◌, ◌||◌, ◌^◌, not, nat_le, nat_lt, find, option_map};
ghost use Rattle.std.specs.List.{list_any};
ghost use Rattle.sb_specs.specs.raid_types_Search.{any_below};
ghost use Rattle.sb_specs.specs.raid_types_Shapes.{is_layout, is_chunk, is_disk_count};
ghost use Rattle.sb_specs.specs.Reading.{entry_of, is_reshaping, lies_within, list_length, shape_of};
ghost use Rattle.sb_specs.specs.Verdict.{is_bad_size, is_bad_entry, is_late_entry, first_bad_entry, is_holder, is_role, judged_fields, bad_field};

use crate::fresh::lies_within;
use sb_specs::says::{entry_of, is_reshaping, list_length, old_disks, role_count};
use sb_specs::{Refusal, Sb, is_chunk, is_disk_count, is_layout, is_level, is_size};

/// The lowest offset of a field that is outside its limits, and behind the fields that of a role entry.
pub fn bad_field(newest: &Sb, fresh: &[(Sb, u64)]) -> Option<Refusal>
    ensures { result ≡ bad_field newest.now fresh.now }
{
    if let Some(offset) = bad_offset(newest, fresh) {
        return Some(Refusal::BadField(offset));
    }
    match bad_entry(newest, fresh) {
        None => None,
        Some(index) => Some(Refusal::BadField(256 + 2 * u64::from(index))),
    }
}

// The offset of the first field that is outside its limits.
fn bad_offset(newest: &Sb, fresh: &[(Sb, u64)]) -> Option<u64>
    ensures { result ≡ option_map (λ f. f.0) (find (λ f. f.1) (judged_fields newest.now fresh.now)) }
{
    first_bad(&[
        (72, !is_level(newest.level)),
        (76, !is_layout(newest.level, newest.layout)),
        (80, is_bad_size(newest)),
        (88, !is_chunk(newest.chunksize)),
        (92, !is_disk_count(newest.level, newest.raid_disks)),
        (100, is_bad_new_level(newest)),
        (104, is_bad_position(newest)),
        (112, is_bad_delta(newest)),
        (116, is_bad_new_layout(newest)),
        (120, is_bad_new_chunk(newest)),
        (128, has_bad_place(newest, fresh)),
        (200, has_too_many_events(newest)),
        (220, has_short_table(fresh)),
    ])
}

fn first_bad(judged: &[(u64, bool)]) -> Option<u64>
    ensures { result ≡ option_map (λ f. f.0) (find (λ f. f.1) judged.now) }
{
    judged.iter().find(|field| field.1).map(|field| field.0)
}

fn is_bad_size(newest: &Sb) -> bool
    ensures { result ≡ is_bad_size newest.now }
{
    let is_bad = newest.chunksize == 0 || !is_size(newest.size, newest.chunksize);
    is_bad
        || is_reshaping(newest)
            && (newest.new_chunk == 0 || !is_size(newest.size, newest.new_chunk))
}

fn is_bad_new_level(newest: &Sb) -> bool
    ensures { result ≡ (is_reshaping newest.now && not (newest.now.new_level == newest.now.level)) }
{
    is_reshaping(newest) && newest.new_level != newest.level
}

fn is_bad_position(newest: &Sb) -> bool
    ensures { result ≡ (is_reshaping newest.now && not (nat_le newest.now.reshape_position (list_length newest.now))) }
{
    is_reshaping(newest) && list_length(newest) < u128::from(newest.reshape_position)
}

// The old disk count of a reshape.
fn is_bad_delta(newest: &Sb) -> bool
    ensures { result ≡ (is_reshaping newest.now && not (is_disk_count newest.now.level (shape_of newest.now).disks)) }
{
    let disks = old_disks(newest);
    is_reshaping(newest) && !(disks <= 16 && is_disk_count(newest.level, disks as u32))
}

fn is_bad_new_layout(newest: &Sb) -> bool
    ensures { result ≡ (is_reshaping newest.now && not (is_layout newest.now.level newest.now.new_layout)) }
{
    is_reshaping(newest) && !is_layout(newest.level, newest.new_layout)
}

fn is_bad_new_chunk(newest: &Sb) -> bool
    ensures { result ≡ (is_reshaping newest.now && not (is_chunk newest.now.new_chunk)) }
{
    is_reshaping(newest) && !is_chunk(newest.new_chunk)
}

// Whether the data of a slot that holds a role doesn't lie within the slot.
fn has_bad_place(newest: &Sb, fresh: &[(Sb, u64)]) -> bool
    ensures { result ≡ list_any (λ s. is_holder newest.now s.0 && not (lies_within newest.now s.1 s.0)) fresh.now }
{
    fresh.iter().any(|(sb, sectors)| is_holder(newest, sb) && !lies_within(newest, *sectors, sb))
}

fn is_holder(newest: &Sb, sb: &Sb) -> bool
    ensures { result ≡ is_holder newest.now sb.now }
{
    u64::from(entry_of(newest, sb.dev_number)) < role_count(newest)
}

fn has_too_many_events(newest: &Sb) -> bool
    ensures { result ≡ not (nat_lt newest.now.events (2 ^ 62)) }
{
    newest.events >= 1 << 62
}

fn has_short_table(fresh: &[(Sb, u64)]) -> bool
    ensures { result ≡ list_any (λ s. nat_lt s.0.max_dev 128) fresh.now }
{
    fresh.iter().any(|(sb, _)| sb.max_dev < 128)
}

// The index of the first role entry that can't be, in the newest superblock or, from 128 on, in any.
fn bad_entry(newest: &Sb, fresh: &[(Sb, u64)]) -> Option<u32>
    ensures { result ≡ first_bad_entry newest.now fresh.now }
{
    for index in 0..384 {
        if is_out(newest, fresh, index) {
            return Some(index);
        }
    }
    None
}

fn is_out(newest: &Sb, fresh: &[(Sb, u64)], index: u32) -> bool
    ensures { result ≡ (is_late_entry fresh.now index || is_bad_entry newest.now index) }
{
    is_late_entry(fresh, index) || is_bad_entry(newest, index)
}

// Whether one of the superblocks has a role for this device number, from 128 on.
fn is_late_entry(fresh: &[(Sb, u64)], index: u32) -> bool
    ensures { result ≡ is_late_entry fresh.now index }
{
    has_role_at(fresh, index) && index >= 128
}

fn has_role_at(fresh: &[(Sb, u64)], index: u32) -> bool
    ensures { result ≡ list_any (λ s. is_role (entry_of s.0 index)) fresh.now }
{
    fresh.iter().any(|(sb, _)| entry_of(sb, index) < 0xfffe)
}

fn is_bad_entry(newest: &Sb, index: u32) -> bool
    ensures { result ≡ is_bad_entry newest.now index }
{
    let entry = entry_of(newest, index);
    entry < 0xfffe
        && (u64::from(entry) >= role_count(newest) || repeats(newest, index, entry) || index >= 128)
}

// Whether the entry stands at a lower index too.
fn repeats(newest: &Sb, index: u32, entry: u16) -> bool
    ensures { result ≡ any_below index (λ before. entry_of newest.now before == entry) }
{
    for before in 0..index {
        if entry_of(newest, before) == entry {
            return true;
        }
    }
    false
}
