//! Why a call isn't done, before any device is touched.

ghost use Rattle.std.specs.Prelude.{◌≡◌, ◌+◌, ◌^◌, ◌<◌, ◌≤◌, false, length, IfSome, IsTrue, MatchOption};
ghost use Rattle.stripe_io.specs.raid_types_Shapes.{is_valid_shape, is_multiple};
ghost use Rattle.stripe_io.specs.raid_types_the_Refusal.{Refusal};
ghost use Rattle.stripe_io.specs.sb_specs_Reading.{is_reshaping, role_count, shape_of};
ghost use Rattle.sb_add_spare.specs.sb_specs_Verdict.{AreValidShapes};
ghost use Rattle.sb_add_spare.specs.array_members_Whole.{list_size};
ghost use Rattle.sb_add_spare.specs.array_members_Placed.{places_of};
ghost use Rattle.sb_add_spare.specs.array_members_Status.{stripes_of};
ghost use Rattle.sb_add_spare.specs.array_members_Lacking.{AreTooMany, IsUnread, IsUnwritten, are_synced, synced_rows};
ghost use Rattle.sb_add_spare.specs.sb_safe_updates_First.{read_refusal, write_refusal, call_refusal};
ghost use Rattle.array_call_laws.specs.array_call_specs_Calls.{IsRefusalOf, IsUnmendable};

use crate::asking::visible;
use sb_add_spare::{first_read_refusal, first_write_refusal, list_length, shape_in, too_many};
use stripe_io::mending::synced_rows;
use stripe_io::{Members, Refusal, Shape};

/// The refusal of a call that ends at the sector `to`, by the visible size and how many roles are missing: `PastEnd`, or else
/// `TooManyMissing`.
pub fn refusal_of(members: &Members, visible: u64, to: u64) -> Option<Refusal>
    requires shapes { AreValidShapes members.now.newest }
    requires roles { length members.now.roles ≡ role_count members.now.newest }
    ensures { IsRefusalOf visible to AreTooMany members.now result }
{
    if visible < to {
        return Some(Refusal::PastEnd(visible));
    }
    too_many(members)
}

/// Whether the sectors of the list below this one are all in rows whose parity is to be relied on.
pub fn are_synced(members: &Members, resync: Option<u64>, shape: &Shape, to: u64) -> bool
    requires shape { shape.now ≡ shape_of members.now.newest }
    requires valid { IsTrue (is_valid_shape (shape_of members.now.newest)) }
    requires multiple { IsTrue (is_multiple members.now.newest.size (shape_of members.now.newest).chunk) }
    requires size { members.now.newest.size ≤ 2 ^ 48 }
    requires progress { IfSome resync (λ mended. mended ≤ stripes_of members.now) }
    ensures { result ≡ are_synced shape.now (synced_rows resync members.now) to }
{
    to <= list_length(shape, synced_rows(members, resync))
}

/// Why so many sectors from one on aren't read, before any is: the first of `PastEnd`, `TooManyMissing` and `NotResynced`.
pub fn first_read_refusal_from(
    members: &Members,
    resync: Option<u64>,
    at: u64,
    count: u64,
) -> Option<Refusal>
    requires shape { IsTrue (is_valid_shape (shape_of members.now.newest)) }
    requires multiple { IsTrue (is_multiple members.now.newest.size (shape_of members.now.newest).chunk) }
    requires roles { (shape_of members.now.newest).disks ≤ length members.now.roles }
    requires size { members.now.newest.size ≤ 2 ^ 48 }
    requires progress { IfSome resync (λ mended. mended ≤ stripes_of members.now) }
    requires short { at + count < 2 ^ 63 }
    ensures first { result ≡ call_refusal (list_size (places_of members.now)) (at + count) (read_refusal (shape_of members.now.newest) (synced_rows resync members.now) at count members.now) }
    ensures why { IsRefusalOf (list_size (places_of members.now)) (at + count) (IsUnread (shape_of members.now.newest) (synced_rows resync members.now) at count) members.now result }
{
    let sectors = visible(members);
    if sectors < at + count {
        return Some(Refusal::PastEnd(sectors));
    }
    let mended = synced_rows(members, resync);
    first_read_refusal(members, &shape_in(members), at, count, mended)
}

/// Why so many sectors from one on aren't written, before any row is read: the first of `PastEnd`, `TooManyMissing` and
/// `NotResynced`.
pub fn first_write_refusal_from(
    members: &Members,
    resync: Option<u64>,
    at: u64,
    count: u64,
) -> Option<Refusal>
    requires shape { IsTrue (is_valid_shape (shape_of members.now.newest)) }
    requires multiple { IsTrue (is_multiple members.now.newest.size (shape_of members.now.newest).chunk) }
    requires roles { (shape_of members.now.newest).disks ≤ length members.now.roles }
    requires size { members.now.newest.size ≤ 2 ^ 48 }
    requires progress { IfSome resync (λ mended. mended ≤ stripes_of members.now) }
    requires short { at + count < 2 ^ 63 }
    ensures first { result ≡ call_refusal (list_size (places_of members.now)) (at + count) (write_refusal (shape_of members.now.newest) (are_synced (shape_of members.now.newest) (synced_rows resync members.now) (at + count)) members.now) }
    ensures why { IsRefusalOf (list_size (places_of members.now)) (at + count) (IsUnwritten (shape_of members.now.newest) (are_synced (shape_of members.now.newest) (synced_rows resync members.now) (at + count))) members.now result }
{
    let end = visible(members);
    if end < at + count {
        return Some(Refusal::PastEnd(end));
    }
    let shape = shape_in(members);
    first_write_refusal(
        members,
        &shape,
        are_synced(members, resync, &shape, at + count),
    )
}

/// Why a stripe isn't mended, before it is read: the first of `TooManyMissing` and `NotResynced`.
pub fn first_resync_refusal(members: &Members) -> Option<Refusal>
    requires shape { IsTrue (is_valid_shape (shape_of members.now.newest)) }
    requires roles { (shape_of members.now.newest).disks ≤ length members.now.roles }
    requires still { is_reshaping members.now.newest ≡ false }
    ensures first { result ≡ write_refusal (shape_of members.now.newest) false members.now }
    ensures why { MatchOption result ((refusal : Refusal) → IsUnmendable members.now refusal → ⊥) (IsUnmendable members.now) }
{
    first_write_refusal(members, &shape_in(members), false)
}
