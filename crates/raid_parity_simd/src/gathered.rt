//! The parity of rows whose data lie somewhere in one slice, and whose parity goes to two others.
ghost use Rattle.std.specs.Prelude.{◌≡◌, ℕ, ◌+◌, ◌*◌, ◌/◌, ◌<◌, ◌≤◌, None, length, slice_index};
ghost use Rattle.raid_parity.specs.Parity.{AreEquationsMet};
ghost use Rattle.raid_parity.specs.Rows.{IsRowRoles, whole_row};
ghost use Rattle.raid_parity_simd.specs.Gathered.{gathered};
ghost use Rattle.raid_parity_simd.specs.Parts.{role_limit};
ghost use Rattle.raid_parity_simd.specs.Places.{plain_sum, weighed_sum};

use crate::order::MOST_ROLES;
use crate::places::{Places, data_places, other_places};
use crate::sectors::{LANES, store};
use crate::sums::{both_at, sum_at};
use raid_parity::RowRoles;

const SECTOR: usize = 512;

// The sum of these parts.
fn sum_of(bytes: &[u8], places: &Places, len: usize, sum: &mut [u8])
    requires few { places.now.count ≤ role_limit }
    requires within { (j : ℕ) → j < places.now.count → slice_index places.now.list j + len ≤ length bytes.now }
    requires long { len ≤ length bytes.now }
    requires cut { len ≡ 64 * (len / 64) }
    requires room { len ≤ length sum.old }
    ensures there { (k : ℕ) → k < len → slice_index sum.new k ≡ plain_sum places.now.count (λ j. slice_index bytes.now (slice_index places.now.list j + k)) }
    ensures behind { (k : ℕ) → len ≤ k → slice_index sum.new k ≡ slice_index sum.old k }
{
    for block in 0..len / LANES {
        let at = block * LANES;
        let part = sum_at(&bytes[at..], places);
        store(sum, at, part);
    }
}

// The sum of these parts, and the sum that is doubled before each.
fn both_of(bytes: &[u8], places: &Places, len: usize, plain: &mut [u8], weighed: &mut [u8])
    requires few { places.now.count ≤ role_limit }
    requires within { (j : ℕ) → j < places.now.count → slice_index places.now.list j + len ≤ length bytes.now }
    requires long { len ≤ length bytes.now }
    requires cut { len ≡ 64 * (len / 64) }
    requires plain { len ≤ length plain.old }
    requires weighed { len ≤ length weighed.old }
    ensures bytes { (place : ℕ) → slice_index bytes.now place < 256 }
    ensures plain { (k : ℕ) → k < len → slice_index plain.new k ≡ plain_sum places.now.count (λ j. slice_index bytes.now (slice_index places.now.list j + k)) }
    ensures weighed { (k : ℕ) → k < len → slice_index weighed.new k ≡ weighed_sum places.now.count (λ j. slice_index bytes.now (slice_index places.now.list j + k)) }
    ensures plain_behind { (k : ℕ) → len ≤ k → slice_index plain.new k ≡ slice_index plain.old k }
    ensures weighed_behind { (k : ℕ) → len ≤ k → slice_index weighed.new k ≡ slice_index weighed.old k }
{
    for block in 0..len / LANES {
        let at = block * LANES;
        let sums = both_at(&bytes[at..], places);
        store(plain, at, sums.plain);
        store(weighed, at, sums.weighed);
    }
}

/// Sets P, and Q where there is one, of `count` rows whose data lie in `bytes`, those of each role from its start on, one
/// sector behind the other.
pub fn parity_of(
    bytes: &[u8],
    starts: &[usize; MOST_ROLES],
    roles: &RowRoles,
    count: usize,
    p: &mut [u8],
    q: &mut [u8],
)
    requires roles { IsRowRoles roles.now }
    requires within { (role : ℕ) → role < roles.now.disks → slice_index starts.now role + 512 * count ≤ length bytes.now }
    requires p { 512 * count ≤ length p.old }
    requires q { 512 * count ≤ length q.old }
    ensures good { (i : ℕ) → i < count → AreEquationsMet roles.now (whole_row roles.now.disks (gathered roles.now bytes.now starts.now p.new q.new i)) }
    ensures p_behind { (k : ℕ) → 512 * count ≤ k → slice_index p.new k ≡ slice_index p.old k }
    ensures q_behind { (k : ℕ) → 512 * count ≤ k → slice_index q.new k ≡ slice_index q.old k }
    ensures without_q { roles.now.q ≡ None → q.new ≡ q.old }
{
    let len = SECTOR * count;
    match roles.q {
        None => sum_of(bytes, &other_places(starts, roles, roles.p), len, p),
        Some(role) => both_of(bytes, &data_places(starts, roles, role), len, p, q),
    }
}
