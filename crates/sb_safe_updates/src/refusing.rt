//! Why a call of an array that lacks members is refused.

ghost use Rattle.std.specs.Prelude.{◌≡◌, ◌+◌, ◌*◌, ◌^◌, ◌<◌, ◌≤◌, length, MatchOption, IsTrue};
ghost use Rattle.raid_layout.specs.raid_types_Shapes.{is_valid_shape, is_multiple, data_disks};
ghost use Rattle.sb_update.specs.sb_specs_Reading.{role_count};
ghost use Rattle.sb_update.specs.sb_specs_Verdict.{AreValidShapes};
ghost use Rattle.array_members.specs.crash_views_Regions.{DoWithout};
ghost use Rattle.array_members.specs.Refusals.{lowest_missing};
ghost use Rattle.sb_safe_updates.specs.First.{first_lacking, read_refusal, write_refusal};
ghost use Rattle.array_members.specs.Lacking.{DoesWithout, LacksTooMany, AreTooMany, refusal_for, refused_by};

use crate::roles::{final_in, shape_in};
use array_members::{Unavailable, is_missing, missing_count, tolerance};
use raid_layout::{Refusal, Shape, parity_only, place};
use sb_update::Members;

/// The refusal where more roles of a shape are missing than it tolerates.
pub fn too_many_of(members: &Members, shape: &Shape) -> Option<Refusal>
    requires shape { IsTrue (is_valid_shape shape.now) }
    requires roles { shape.now.disks ≤ length members.now.roles }
    ensures { MatchOption result (DoesWithout shape.now members.now) (LacksTooMany shape.now members.now) }
{
    let count = missing_count(members, shape.disks);
    let most = tolerance(shape);
    if count <= most {
        return None;
    }
    Some(Refusal::TooManyMissing(count as u64, most as u64))
}

/// The refusal where more roles of a shape in force are missing than it tolerates: of the old one first.
pub fn too_many(members: &Members) -> Option<Refusal>
    requires shapes { AreValidShapes members.now.newest }
    requires roles { length members.now.roles ≡ role_count members.now.newest }
    ensures { MatchOption result (DoWithout members.now) (AreTooMany members.now) }
{
    match too_many_of(members, &shape_in(members)) {
        Some(refusal) => Some(refusal),
        None => too_many_of(members, &final_in(members)),
    }
}

/// The refusal for sectors that can't be had, in rows of this shape.
pub fn refusal_for(cause: Unavailable, members: &Members, shape: &Shape) -> Refusal
    requires shape { IsTrue (is_valid_shape shape.now) }
    requires roles { shape.now.disks ≤ length members.now.roles }
    ensures { result ≡ refusal_for shape.now members.now cause }
{
    match cause {
        Unavailable::NotResynced(role) => Refusal::NotResynced(role),
        Unavailable::TooManyMissing => {
            let count = missing_count(members, shape.disks);
            Refusal::TooManyMissing(count as u64, tolerance(shape) as u64)
        }
    }
}

/// The refusal that stands in an answer.
pub fn refused_by(
    answer: Result<(), Unavailable>,
    members: &Members,
    shape: &Shape,
) -> Option<Refusal>
    requires shape { IsTrue (is_valid_shape shape.now) }
    requires roles { shape.now.disks ≤ length members.now.roles }
    ensures { result ≡ refused_by shape.now members.now answer }
{
    match answer {
        Ok(()) => None,
        Err(cause) => Some(refusal_for(cause, members, shape)),
    }
}

// The role of the first of so many sectors of the list from `first` on that lies behind the mended rows on one that is missing.
fn first_lacking(
    members: &Members,
    shape: &Shape,
    first: u64,
    count: u64,
    mended: u64,
) -> Option<u32>
    requires shape { IsTrue (is_valid_shape shape.now) }
    requires disks { shape.now.disks ≤ length members.now.roles }
    requires short { first + count < 2 ^ 53 }
    ensures { result ≡ first_lacking shape.now mended first count members.now }
{
    for i in 0..count {
        let at = place(shape, first + i);
        if at.row >= mended && is_missing(members, at.role) {
            return Some(at.role);
        }
    }
    None
}

/// Why so many sectors of the list from `first` on, which are placed by this shape, can't be read, where parity is to be relied on in
/// the mended rows alone: too many of its roles are missing, or else that of the first sector behind these rows whose role is.
pub fn first_read_refusal(
    members: &Members,
    shape: &Shape,
    first: u64,
    count: u64,
    mended: u64,
) -> Option<Refusal>
    requires shape { IsTrue (is_valid_shape shape.now) }
    requires multiple { IsTrue (is_multiple members.now.newest.size shape.now.chunk) }
    requires roles { shape.now.disks ≤ length members.now.roles }
    requires within { first + count ≤ data_disks shape.now * members.now.newest.size }
    requires short { first + count < 2 ^ 53 }
    ensures { result ≡ read_refusal shape.now mended first count members.now }
{
    let refusal = too_many_of(members, shape);
    if refusal.is_some() {
        return refusal;
    }
    if mended >= members.newest.size {
        return None;
    }
    match first_lacking(members, shape, first, count, mended) {
        Some(role) => Some(Refusal::NotResynced(role)),
        None => None,
    }
}

// The lowest missing role that has data in this shape.
fn lowest_missing(members: &Members, shape: &Shape) -> Option<u32>
    requires shape { IsTrue (is_valid_shape shape.now) }
    requires roles { shape.now.disks ≤ length members.now.roles }
    ensures { result ≡ lowest_missing shape.now members.now }
{
    for role in 0..shape.disks {
        if is_missing(members, role) && !parity_only(shape, role) {
            return Some(role);
        }
    }
    None
}

/// Why rows of this shape can't be written, whose parity is to be relied on where they are synced: too many of its roles are
/// missing, or else the lowest missing one that has data.
pub fn first_write_refusal(members: &Members, shape: &Shape, synced: bool) -> Option<Refusal>
    requires shape { IsTrue (is_valid_shape shape.now) }
    requires roles { shape.now.disks ≤ length members.now.roles }
    ensures { result ≡ write_refusal shape.now synced members.now }
{
    let many = too_many_of(members, shape);
    if many.is_some() {
        return many;
    }
    if synced {
        return None;
    }
    match lowest_missing(members, shape) {
        Some(role) => Some(Refusal::NotResynced(role)),
        None => None,
    }
}
