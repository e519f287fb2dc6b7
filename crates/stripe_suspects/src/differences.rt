//! The differences between the parity of a row and what stands there.
ghost use Rattle.std.specs.Prelude.{◌≡◌, ℕ, ◌<◌, ◌≤◌, ◌*◌, ◌+◌, true, false, length, slice_index};
ghost use Rattle.std.specs.Int.Bits.{bit_xor};
ghost use Rattle.raid_parity.specs.Exponents.{exponent, steps_behind};
ghost use Rattle.raid_parity.specs.Rows.{IsRowRoles, byte_of};
ghost use Rattle.stripe_suspects.specs.Rule.{explains, Explains, AreZero, IsFound};

use crate::judged::Judged;
use raid_parity::{RowRoles, mul, pow_g};

/// A copy of the sector of a role.
pub(crate) fn copy_of(row: &[u8], role: u32) -> [u8; 512]
    requires { 512 * role + 512 ≤ length row.now }
    ensures copy { (at : ℕ) → at < 512 → slice_index result at ≡ byte_of row.now role at }
    ensures bytes { (place : ℕ) → slice_index row.now place < 256 }
{
    let start = 512 * role as usize;
    let mut copy = [0; 512];
    for at in 0..512 {
        copy[at] = row[start + at];
    }
    copy
}

/// The difference between a sector and that of a role.
pub(crate) fn difference(sector: &[u8], row: &[u8], role: u32) -> [u8; 512]
    requires sector { length sector.now ≡ 512 }
    requires within { 512 * role + 512 ≤ length row.now }
    ensures { (at : ℕ) → at < 512 → slice_index result at ≡ bit_xor (byte_of row.now role at) (slice_index sector.now at) }
{
    let start = 512 * role as usize;
    let mut sum = [0; 512];
    for at in 0..512 {
        sum[at] = row[start + at] ^ sector[at];
    }
    sum
}

/// Whether no byte differs.
pub(crate) fn are_zero(p_difference: &[u8], q_difference: &[u8]) -> bool
    requires p_difference { length p_difference.now ≡ 512 }
    requires q_difference { length q_difference.now ≡ 512 }
    ensures yes { result ≡ true → AreZero (slice_index p_difference.now) (slice_index q_difference.now) }
    ensures other { result ≡ false → AreZero (slice_index p_difference.now) (slice_index q_difference.now) → ⊥ }
{
    let mut all = 0;
    for at in 0..512 {
        all |= p_difference[at] | q_difference[at];
    }
    all == 0
}

// How many disks a role stands behind Q, going round.
fn steps_after(roles: &RowRoles, q: u32, role: u32) -> u32
    requires roles { IsRowRoles roles.now }
    requires q { q < roles.now.disks }
    requires role { role < roles.now.disks }
    ensures { result ≡ steps_behind roles.now q role }
{
    (role + roles.disks - (q + 1)) % roles.disks
}

// The exponent of a role in Q.
fn exponent_of(roles: &RowRoles, q: u32, role: u32) -> u32
    requires roles { IsRowRoles roles.now }
    requires q { q < roles.now.disks }
    requires role { role < roles.now.disks }
    ensures { result ≡ exponent roles.now q role }
{
    let steps = steps_after(roles, q, role);
    if steps_after(roles, q, roles.p) < steps {
        steps - 1
    } else {
        steps
    }
}

// Whether another sector of this role explains the differences.
fn explains_all(
    p_difference: &[u8],
    q_difference: &[u8],
    roles: &RowRoles,
    q: u32,
    role: u32,
) -> bool
    requires p_difference { length p_difference.now ≡ 512 }
    requires q_difference { length q_difference.now ≡ 512 }
    requires roles { IsRowRoles roles.now }
    requires q { q < roles.now.disks }
    requires role { role < roles.now.disks }
    ensures yes { result ≡ true → Explains roles.now q role (slice_index p_difference.now) (slice_index q_difference.now) }
    ensures other { result ≡ false → Explains roles.now q role (slice_index p_difference.now) (slice_index q_difference.now) → ⊥ }
{
    let weight = pow_g(exponent_of(roles, q, role));
    for at in 0..512 {
        let explained = if role == roles.p {
            q_difference[at] == 0
        } else if role == q {
            p_difference[at] == 0
        } else {
            q_difference[at] == mul(weight, p_difference[at])
        };
        if !explained {
            return false;
        }
    }
    true
}

/// What the rule finds from the differences of P and of Q.
pub(crate) fn found(p_difference: &[u8], q_difference: &[u8], roles: &RowRoles, q: u32) -> Judged
    requires p_difference { length p_difference.now ≡ 512 }
    requires q_difference { length q_difference.now ≡ 512 }
    requires roles { IsRowRoles roles.now }
    requires q { q < roles.now.disks }
    ensures { IsFound roles.now q (slice_index p_difference.now) (slice_index q_difference.now) result }
{
    if are_zero(p_difference, q_difference) {
        return Judged::Good;
    }
    for role in 0..roles.disks {
        if explains_all(p_difference, q_difference, roles, q, role) {
            return Judged::Suspect(role);
        }
    }
    Judged::Unknown
}
