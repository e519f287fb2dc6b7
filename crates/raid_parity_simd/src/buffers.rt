//! The parity of many rows at once, in a buffer that has of each role the sectors of all rows, one behind the other.
ghost use Rattle.std.specs.Prelude.{◌≡◌, ◌≢◌, ◌==◌, ℕ, ◌+◌, ◌*◌, ◌<◌, ◌≤◌, ◌||◌, IsTrue, IsSome, length, slice_index};
ghost use Rattle.raid_parity.specs.Exponents.{is_data};
ghost use Rattle.raid_parity.specs.Parity.{fill, AreEquationsMet};
ghost use Rattle.raid_parity.specs.Rows.{IsRowRoles, row_without, whole_row};
ghost use Rattle.raid_parity_simd.specs.Buffers.{IsRun, buffer_rows, role_sectors, role_bytes, buffered};
ghost use Rattle.raid_parity_simd.specs.Parts.{IsOutside, role_limit};

use crate::order::MOST_ROLES;
use crate::solve::{factors_of, set_two};
use crate::sums::{set_both, set_q, set_rest};
use raid_parity::RowRoles;

const SECTOR: usize = 512;

/// How many rows have room in a buffer.
pub const BUFFER_ROWS: usize = 128;

/// How many sectors lie from a role's first to the next role's: at least as many as a buffer has rows.
pub const ROLE_SECTORS: usize = BUFFER_ROWS;

/// The same in bytes.
pub const ROLE_BYTES: usize = SECTOR * ROLE_SECTORS;

// Where the sectors of such a row begin, role after role.
fn buffer_starts(first: usize) -> [usize; MOST_ROLES]
    requires { first ≤ buffer_rows }
    ensures { (role : ℕ) → role < role_limit → slice_index result role ≡ role_bytes * role + 512 * first }
{
    let mut starts = [0; MOST_ROLES];
    for role in 0..MOST_ROLES {
        starts[role] = ROLE_BYTES * role + SECTOR * first;
    }
    starts
}

/// Sets P, and Q where there is one, from the data of `count` rows, the first of them this one.
pub fn syndromes_run(buffer: &mut [u8], roles: &RowRoles, first: usize, count: usize)
    requires roles { IsRowRoles roles.now }
    requires run { IsRun roles.now.disks first count (length buffer.old) }
    ensures good { (i : ℕ) → i < count → AreEquationsMet roles.now (whole_row roles.now.disks (buffered buffer.new (first + i))) }
    ensures data { (i role : ℕ) → i < role_sectors → IsTrue (is_data roles.now role) → buffered buffer.new i role ≡ buffered buffer.old i role }
    ensures outside { (i role : ℕ) → i < role_sectors → IsOutside first count i → buffered buffer.new i role ≡ buffered buffer.old i role }
{
    let starts = buffer_starts(first);
    let len = SECTOR * count;
    match roles.q {
        None => set_rest(buffer, &starts, len, roles, roles.p),
        Some(q) => set_both(buffer, &starts, len, roles, q),
    }
}

/// Sets the sectors of one missing role in `count` rows from those of the others: Q from the data, any other from the data
/// and P.
pub fn fill_one_run(buffer: &mut [u8], roles: &RowRoles, missing: u32, first: usize, count: usize)
    requires roles { IsRowRoles roles.now }
    requires run { IsRun roles.now.disks first count (length buffer.old) }
    requires missing { missing < roles.now.disks }
    ensures filled { (i : ℕ) → i < count → buffered buffer.new (first + i) missing ≡ fill roles.now (row_without (λ role. role == missing) roles.now.disks (buffered buffer.old (first + i))) missing }
    ensures others { (i role : ℕ) → i < role_sectors → role ≢ missing → buffered buffer.new i role ≡ buffered buffer.old i role }
    ensures outside { (i role : ℕ) → i < role_sectors → IsOutside first count i → buffered buffer.new i role ≡ buffered buffer.old i role }
{
    let starts = buffer_starts(first);
    let len = SECTOR * count;
    if let Some(q) = roles.q {
        if q == missing {
            set_q(buffer, &starts, len, roles, q);
            return;
        }
    }
    set_rest(buffer, &starts, len, roles, missing);
}

/// Sets the sectors of two missing roles in `count` rows that have a Q, from those of the others.
pub fn fill_two_run(
    buffer: &mut [u8],
    roles: &RowRoles,
    one: u32,
    two: u32,
    first: usize,
    count: usize,
)
    requires roles { IsRowRoles roles.now }
    requires run { IsRun roles.now.disks first count (length buffer.old) }
    requires one { one < roles.now.disks }
    requires two { two < roles.now.disks }
    requires differ { one ≢ two }
    requires q { IsSome roles.now.q }
    ensures one { (i : ℕ) → i < count → buffered buffer.new (first + i) one ≡ fill roles.now (row_without (λ role. (role == one) || (role == two)) roles.now.disks (buffered buffer.old (first + i))) one }
    ensures two { (i : ℕ) → i < count → buffered buffer.new (first + i) two ≡ fill roles.now (row_without (λ role. (role == one) || (role == two)) roles.now.disks (buffered buffer.old (first + i))) two }
    ensures others { (i role : ℕ) → i < role_sectors → role ≢ one → role ≢ two → buffered buffer.new i role ≡ buffered buffer.old i role }
    ensures outside { (i role : ℕ) → i < role_sectors → IsOutside first count i → buffered buffer.new i role ≡ buffered buffer.old i role }
{
    let q = roles.q.unwrap();
    let factors = factors_of(roles, q, one, two);
    set_two(
        buffer,
        &buffer_starts(first),
        SECTOR * count,
        roles,
        q,
        one,
        two,
        &factors,
    );
}
