//! Roles as the tables name them.

use raid_types::Role;

pub const A: Role = Role::Whole(0);

pub const B: Role = Role::Whole(1);

pub const C: Role = Role::Whole(2);

pub const D: Role = Role::Whole(3);

pub const E: Role = Role::Whole(4);

pub const NONE: Role = Role::Missing;
