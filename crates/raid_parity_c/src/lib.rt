//! The calls of the crates `parity` and `raid_parity_simd` for a caller in C.
#![tactic(auto)]

ghost use Rattle.std.specs.Prelude.{◌≡◌, ◌≢◌, ◌==◌, ◌+◌, ◌<◌, ◌≤◌, ◌||◌, ℕ, Some, None, IsTrue, if◌then◌else◌, length};
ghost use Rattle.raid_parity_simd.specs.Buffers.{IsRun, role_sectors, buffered};
ghost use Rattle.raid_parity_simd.specs.Parts.{IsOutside};
ghost use Rattle.raid_parity_simd.specs.raid_parity_Exponents.{is_data};
ghost use Rattle.raid_parity_simd.specs.raid_parity_Parity.{AreEquationsMet, fill};
ghost use Rattle.raid_parity_simd.specs.raid_parity_Rows.{IsRowOf, sector_of, row_without, whole_row};

use raid_parity_simd::RowRoles;

/// Sets P and Q from the data of a row of whole sectors, role after role.
#[unsafe(no_mangle)]
pub extern "C" fn parity_syndromes(row: &mut [u8], disks: u32, p: u32, q: u32)
    requires disks { disks ≤ 16 }
    requires p { p < disks }
    requires q { (q < disks) × (q ≢ p) }
    requires whole { IsRowOf disks row.old }
    ensures good { AreEquationsMet (record { disks = disks; p = p; q = Some q }) (whole_row disks (sector_of row.new)) }
    ensures data { (role : ℕ) → IsTrue (is_data (record { disks = disks; p = p; q = Some q }) role) → sector_of row.new role ≡ sector_of row.old role }
{
    raid_parity_simd::parity_syndromes(
        row,
        &RowRoles {
            disks,
            p,
            q: Some(q),
        },
    );
}

/// Sets P alone, of a row without Q.
#[unsafe(no_mangle)]
pub extern "C" fn parity_plain_syndromes(row: &mut [u8], disks: u32, p: u32)
    requires disks { disks ≤ 16 }
    requires p { p < disks }
    requires whole { IsRowOf disks row.old }
    ensures good { AreEquationsMet (record { disks = disks; p = p; q = None }) (whole_row disks (sector_of row.new)) }
    ensures data { (role : ℕ) → IsTrue (is_data (record { disks = disks; p = p; q = None }) role) → sector_of row.new role ≡ sector_of row.old role }
{
    raid_parity_simd::parity_syndromes(row, &RowRoles { disks, p, q: None });
}

/// Sets the sector of one missing role.
#[unsafe(no_mangle)]
pub extern "C" fn parity_fill_one(row: &mut [u8], disks: u32, p: u32, q: u32, missing: u32)
    requires disks { disks ≤ 16 }
    requires p { p < disks }
    requires q { (q < disks) × (q ≢ p) }
    requires whole { IsRowOf disks row.old }
    requires missing { missing < disks }
    ensures filled { sector_of row.new missing ≡ fill (record { disks = disks; p = p; q = Some q }) (row_without (λ role. role == missing) disks (sector_of row.old)) missing }
    ensures others { (role : ℕ) → role ≢ missing → sector_of row.new role ≡ sector_of row.old role }
{
    raid_parity_simd::parity_fill_one(
        row,
        &RowRoles {
            disks,
            p,
            q: Some(q),
        },
        missing,
    );
}

/// Sets the sectors of two missing roles.
#[unsafe(no_mangle)]
pub extern "C" fn parity_fill_two(
    row: &mut [u8],
    disks: u32,
    p: u32,
    q: u32,
    first: u32,
    second: u32,
)
    requires disks { disks ≤ 16 }
    requires p { p < disks }
    requires q { (q < disks) × (q ≢ p) }
    requires whole { IsRowOf disks row.old }
    requires first { first < disks }
    requires second { second < disks }
    requires differ { first ≢ second }
    ensures first { sector_of row.new first ≡ fill (record { disks = disks; p = p; q = Some q }) (row_without (λ role. (role == first) || (role == second)) disks (sector_of row.old)) first }
    ensures second { sector_of row.new second ≡ fill (record { disks = disks; p = p; q = Some q }) (row_without (λ role. (role == first) || (role == second)) disks (sector_of row.old)) second }
    ensures others { (role : ℕ) → role ≢ first → role ≢ second → sector_of row.new role ≡ sector_of row.old role }
{
    raid_parity_simd::parity_fill_two(
        row,
        &RowRoles {
            disks,
            p,
            q: Some(q),
        },
        first,
        second,
    );
}

/// Sets P and Q by vectors.
#[unsafe(no_mangle)]
pub extern "C" fn parity_lanes_syndromes(row: &mut [u8], disks: u32, p: u32, q: u32)
    requires disks { disks ≤ 16 }
    requires p { p < disks }
    requires q { (q < disks) × (q ≢ p) }
    requires whole { IsRowOf disks row.old }
    ensures good { AreEquationsMet (record { disks = disks; p = p; q = Some q }) (whole_row disks (sector_of row.new)) }
    ensures data { (role : ℕ) → IsTrue (is_data (record { disks = disks; p = p; q = Some q }) role) → sector_of row.new role ≡ sector_of row.old role }
{
    raid_parity_simd::syndromes(
        row,
        &RowRoles {
            disks,
            p,
            q: Some(q),
        },
    );
}

/// Sets P alone, by vectors.
#[unsafe(no_mangle)]
pub extern "C" fn parity_lanes_plain_syndromes(row: &mut [u8], disks: u32, p: u32)
    requires disks { disks ≤ 16 }
    requires p { p < disks }
    requires whole { IsRowOf disks row.old }
    ensures good { AreEquationsMet (record { disks = disks; p = p; q = None }) (whole_row disks (sector_of row.new)) }
    ensures data { (role : ℕ) → IsTrue (is_data (record { disks = disks; p = p; q = None }) role) → sector_of row.new role ≡ sector_of row.old role }
{
    raid_parity_simd::syndromes(row, &RowRoles { disks, p, q: None });
}

/// Sets the sector of one missing role by vectors.
#[unsafe(no_mangle)]
pub extern "C" fn parity_lanes_fill_one(row: &mut [u8], disks: u32, p: u32, q: u32, missing: u32)
    requires disks { disks ≤ 16 }
    requires p { p < disks }
    requires q { (q < disks) × (q ≢ p) }
    requires whole { IsRowOf disks row.old }
    requires missing { missing < disks }
    ensures filled { sector_of row.new missing ≡ fill (record { disks = disks; p = p; q = Some q }) (row_without (λ role. role == missing) disks (sector_of row.old)) missing }
    ensures others { (role : ℕ) → role ≢ missing → sector_of row.new role ≡ sector_of row.old role }
{
    raid_parity_simd::fill_one(
        row,
        &RowRoles {
            disks,
            p,
            q: Some(q),
        },
        missing,
    );
}

/// Sets the sectors of two missing roles by vectors.
#[unsafe(no_mangle)]
pub extern "C" fn parity_lanes_fill_two(
    row: &mut [u8],
    disks: u32,
    p: u32,
    q: u32,
    first: u32,
    second: u32,
)
    requires disks { disks ≤ 16 }
    requires p { p < disks }
    requires q { (q < disks) × (q ≢ p) }
    requires whole { IsRowOf disks row.old }
    requires first { first < disks }
    requires second { second < disks }
    requires differ { first ≢ second }
    ensures first { sector_of row.new first ≡ fill (record { disks = disks; p = p; q = Some q }) (row_without (λ role. (role == first) || (role == second)) disks (sector_of row.old)) first }
    ensures second { sector_of row.new second ≡ fill (record { disks = disks; p = p; q = Some q }) (row_without (λ role. (role == first) || (role == second)) disks (sector_of row.old)) second }
    ensures others { (role : ℕ) → role ≢ first → role ≢ second → sector_of row.new role ≡ sector_of row.old role }
{
    raid_parity_simd::fill_two(
        row,
        &RowRoles {
            disks,
            p,
            q: Some(q),
        },
        first,
        second,
    );
}

/// Sets P and Q of `count` rows of a buffer, the first of them this one.
#[unsafe(no_mangle)]
pub extern "C" fn parity_lanes_syndromes_run(
    buffer: &mut [u8],
    disks: u32,
    p: u32,
    q: u32,
    first: usize,
    count: usize,
)
    requires disks { disks ≤ 16 }
    requires p { p < disks }
    requires q { (q < disks) × (q ≢ p) }
    requires run { IsRun disks first count (length buffer.old) }
    ensures good { (i : ℕ) → i < count → AreEquationsMet (record { disks = disks; p = p; q = Some q }) (whole_row disks (buffered buffer.new (first + i))) }
    ensures data { (i role : ℕ) → i < role_sectors → IsTrue (is_data (record { disks = disks; p = p; q = Some q }) role) → buffered buffer.new i role ≡ buffered buffer.old i role }
    ensures outside { (i role : ℕ) → i < role_sectors → IsOutside first count i → buffered buffer.new i role ≡ buffered buffer.old i role }
{
    raid_parity_simd::syndromes_run(
        buffer,
        &RowRoles {
            disks,
            p,
            q: Some(q),
        },
        first,
        count,
    );
}

/// Sets P alone, of rows without Q.
#[unsafe(no_mangle)]
pub extern "C" fn parity_lanes_plain_syndromes_run(
    buffer: &mut [u8],
    disks: u32,
    p: u32,
    first: usize,
    count: usize,
)
    requires disks { disks ≤ 16 }
    requires p { p < disks }
    requires run { IsRun disks first count (length buffer.old) }
    ensures good { (i : ℕ) → i < count → AreEquationsMet (record { disks = disks; p = p; q = None }) (whole_row disks (buffered buffer.new (first + i))) }
    ensures data { (i role : ℕ) → i < role_sectors → IsTrue (is_data (record { disks = disks; p = p; q = None }) role) → buffered buffer.new i role ≡ buffered buffer.old i role }
    ensures outside { (i role : ℕ) → i < role_sectors → IsOutside first count i → buffered buffer.new i role ≡ buffered buffer.old i role }
{
    raid_parity_simd::syndromes_run(buffer, &RowRoles { disks, p, q: None }, first, count);
}

/// Sets the sectors of one missing role of such rows.
#[unsafe(no_mangle)]
pub extern "C" fn parity_lanes_fill_one_run(
    buffer: &mut [u8],
    disks: u32,
    p: u32,
    q: u32,
    missing: u32,
    first: usize,
    count: usize,
)
    requires disks { disks ≤ 16 }
    requires p { p < disks }
    requires q { (q < disks) × (q ≢ p) }
    requires run { IsRun disks first count (length buffer.old) }
    requires missing { missing < disks }
    ensures filled { (i : ℕ) → i < count → buffered buffer.new (first + i) missing ≡ fill (record { disks = disks; p = p; q = Some q }) (row_without (λ role. role == missing) disks (buffered buffer.old (first + i))) missing }
    ensures others { (i role : ℕ) → i < role_sectors → role ≢ missing → buffered buffer.new i role ≡ buffered buffer.old i role }
    ensures outside { (i role : ℕ) → i < role_sectors → IsOutside first count i → buffered buffer.new i role ≡ buffered buffer.old i role }
{
    raid_parity_simd::fill_one_run(
        buffer,
        &RowRoles {
            disks,
            p,
            q: Some(q),
        },
        missing,
        first,
        count,
    );
}

/// Sets the sectors of two missing roles of such rows.
#[unsafe(no_mangle)]
pub extern "C" fn parity_lanes_fill_two_run(
    buffer: &mut [u8],
    disks: u32,
    p: u32,
    q: u32,
    one: u32,
    two: u32,
    first: usize,
    count: usize,
)
    requires disks { disks ≤ 16 }
    requires p { p < disks }
    requires q { (q < disks) × (q ≢ p) }
    requires run { IsRun disks first count (length buffer.old) }
    requires one { one < disks }
    requires two { two < disks }
    requires differ { one ≢ two }
    ensures one { (i : ℕ) → i < count → buffered buffer.new (first + i) one ≡ fill (record { disks = disks; p = p; q = Some q }) (row_without (λ role. (role == one) || (role == two)) disks (buffered buffer.old (first + i))) one }
    ensures two { (i : ℕ) → i < count → buffered buffer.new (first + i) two ≡ fill (record { disks = disks; p = p; q = Some q }) (row_without (λ role. (role == one) || (role == two)) disks (buffered buffer.old (first + i))) two }
    ensures others { (i role : ℕ) → i < role_sectors → role ≢ one → role ≢ two → buffered buffer.new i role ≡ buffered buffer.old i role }
    ensures outside { (i role : ℕ) → i < role_sectors → IsOutside first count i → buffered buffer.new i role ≡ buffered buffer.old i role }
{
    raid_parity_simd::fill_two_run(
        buffer,
        &RowRoles {
            disks,
            p,
            q: Some(q),
        },
        one,
        two,
        first,
        count,
    );
}
