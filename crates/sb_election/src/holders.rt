//! The holders of the roles.

ghost use Rattle.std.specs.Prelude.{◌≡◌, ◌≤◌, ◌<◌, length, IfOk};
ghost use Rattle.sb_specs.specs.raid_types_Search.{tabulate};
ghost use Rattle.sb_specs.specs.Reading.{holds_role, holder_from, state_of, role_count};

use sb_specs::says::{entry_of, is_fresh, is_recovering, role_count};
use sb_specs::{Role, RoleList, Sb};
use std::alloc::{AllocError, Global};

/// The state of each role.
pub fn roles(alloc: Global, newest: &Sb, own: &[Option<Sb>]) -> Result<RoleList, AllocError>
    requires roles { role_count newest.now ≤ 16 }
    requires slots { length own.now ≤ 32 }
    ensures { IfOk result (λ roles. roles ≡ tabulate (role_count newest.now) (λ role. holder_from newest.now role 0 own.now)) }
{
    let mut roles = RoleList::new(alloc)?;
    for role in 0..role_count(newest) as u32 {
        roles.push(holder(newest, role, own));
    }
    Ok(roles)
}

// The role's state: the first fresh slot whose device number has the role holds it.
fn holder(newest: &Sb, role: u32, own: &[Option<Sb>]) -> Role
    requires { length own.now ≤ 32 }
    ensures { result ≡ holder_from newest.now role 0 own.now }
{
    for (slot, superblock) in own.iter().enumerate() {
        if let Some(sb) = superblock {
            if holds_role(newest, role, sb) {
                return state_of(slot as u32, sb);
            }
        }
    }
    Role::Missing
}

fn holds_role(newest: &Sb, role: u32, sb: &Sb) -> bool
    ensures { result ≡ holds_role newest.now role sb.now }
{
    is_fresh(newest, sb) && u32::from(entry_of(newest, sb.dev_number)) == role
}

// The state of a role that this slot holds.
fn state_of(slot: u32, sb: &Sb) -> Role
    ensures { result ≡ state_of slot sb.now }
{
    if is_recovering(sb) {
        Role::Recovering(slot)
    } else {
        Role::Whole(slot)
    }
}
