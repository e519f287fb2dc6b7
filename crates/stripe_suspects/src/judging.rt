//! One row.
ghost use Rattle.std.specs.Prelude.{◌≡◌, ℕ, IsTrue};
ghost use Rattle.raid_parity.specs.Exponents.{is_data};
ghost use Rattle.raid_parity.specs.Rows.{IsRowRoles, IsRowOf, sector_of};
ghost use Rattle.stripe_suspects.specs.Suspects.{IsGood, IsJudged};

use crate::differences::{are_zero, copy_of, difference, found};
use crate::judged::Judged;
use raid_parity_simd::{RowRoles, syndromes};

/// Judges a row of whole sectors, role after role, and sets P, and Q where there is one, from its data.
pub fn judge_row(row: &mut [u8], roles: &RowRoles) -> Judged
    requires roles { IsRowRoles roles.now }
    requires whole { IsRowOf roles.now.disks row.old }
    ensures judged { IsJudged roles.now (sector_of row.old) result }
    ensures good { IsGood roles.now (sector_of row.new) }
    ensures data { (role : ℕ) → IsTrue (is_data roles.now role) → sector_of row.new role ≡ sector_of row.old role }
{
    let p_sector = copy_of(row, roles.p);
    match roles.q {
        None => {
            syndromes(row, roles);
            let p_difference = difference(&p_sector, row, roles.p);
            if are_zero(&p_difference, &p_difference) {
                Judged::Good
            } else {
                Judged::Unknown
            }
        }
        Some(q) => {
            let q_sector = copy_of(row, q);
            syndromes(row, roles);
            let p_difference = difference(&p_sector, row, roles.p);
            let q_difference = difference(&q_sector, row, q);
            found(&p_difference, &q_difference, roles, q)
        }
    }
}
