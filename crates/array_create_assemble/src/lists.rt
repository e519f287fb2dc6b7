//! The lists of an array's members, made before anything is written.

ghost use Rattle.std.specs.Prelude.{◌≡◌, ◌≤◌, [], None, IfOk, replicate};
ghost use Rattle.array_found_laws.specs.raid_types_Search.{tabulate};
ghost use Rattle.array_found_laws.specs.raid_types_the_Role_TheVariants.{Whole};

use bank::{Role, RoleList, SlotList};
use sb_election::SbList;
use std::alloc::{AllocError, Global};

/// No superblock yet, each role whole on the slot of its number, and no spare.
#[derive(Drop)]
pub struct Lists {
    pub own: SbList,
    pub roles: RoleList,
    pub spares: SlotList,
}

// So many roles, each whole on the slot of its number.
fn whole_roles(alloc: Global, disks: u32) -> Result<RoleList, AllocError>
    requires { disks ≤ 16 }
    ensures { IfOk result (λ roles. roles ≡ tabulate disks (λ role. Whole role)) }
{
    let mut roles = RoleList::new(alloc)?;
    for role in 0..disks {
        roles.push(Role::Whole(role));
    }
    Ok(roles)
}

/// The lists for so many roles.
pub fn new_lists(alloc: Global, disks: u32) -> Result<Lists, AllocError>
    requires { disks ≤ 16 }
    ensures own { IfOk result (λ lists. lists.own ≡ replicate 32 None) }
    ensures roles { IfOk result (λ lists. lists.roles ≡ tabulate disks (λ role. Whole role)) }
    ensures spares { IfOk result (λ lists. lists.spares ≡ []) }
{
    let own = SbList::new(alloc)?;
    let roles = whole_roles(alloc, disks)?;
    let spares = SlotList::new(alloc)?;
    Ok(Lists { own, roles, spares })
}
