//! What an array tells of itself.

ghost use Rattle.std.specs.Prelude.{◌≡◌, ℕ, List};

use crate::places::Shape;
use std::alloc::{AllocError, Global};
use std::marker::Model;

/// Which slot holds a role: all its rows, its first rows only, or none does.
#[derive(Clone, Copy, Debug, PartialEq, Eq)]
pub enum Role {
    Whole(u32),
    Recovering(u32),
    Missing,
}

/// The state of each role, in order; there is room for 16.
#[derive(Drop)]
pub struct RoleList {
    roles: Vec<Role>,
}

impl Model for RoleList {
    ghost use Rattle.std.specs.Prelude.{◌≤◌, List, vec_capacity};
    ghost use Rattle.raid_types.specs.declared.status.Role.{Role};

    ghost Value = { List Role };

    ghost view = { λ l. l.roles.items };

    ghost invariant = { λ l. 16 ≤ vec_capacity l.roles };
}

impl RoleList {
    ghost use Rattle.std.specs.Prelude.{◌≡◌, ◌<◌, ◌++◌, [], ◌∷◌, length, slice_index_or, slice_set, IfOk};
    ghost use Rattle.raid_types.specs.declared.status.Role.TheVariants.{Missing};

    /// An empty list.
    pub fn new(alloc: Global) -> Result<Self, AllocError>
        ensures { IfOk result (λ list. list ≡ []) }
    {
        let roles = Vec::with_capacity(alloc, 16)?;
        Ok(RoleList { roles })
    }

    pub fn len(&self) -> usize
        ensures { result ≡ length self.now }
    {
        self.roles.len()
    }

    pub fn get(&self, role: u32) -> Role
        requires { role < length self.now }
        ensures { result ≡ slice_index_or self.now role Missing }
    {
        self.roles[role as usize]
    }

    pub fn set(&mut self, role: u32, state: Role)
        requires { role < length self.old }
        ensures { self.new ≡ slice_set self.old role state }
    {
        self.roles[role as usize] = state;
    }

    /// One role more, at the end; it takes no memory.
    pub fn push(&mut self, state: Role)
        requires { length self.old < 16 }
        ensures { self.new ≡ self.old ++ state ∷ [] }
    {
        self.roles.push_reserved(state);
    }

    /// No role is left; the room stays.
    pub fn clear(&mut self)
        ensures { self.new ≡ [] }
    {
        self.roles.clear();
    }

    pub fn as_slice(&self) -> &[Role]
        ensures { result.now ≡ self.now }
    {
        self.roles.as_slice()
    }
}

/// Slots, in order; there is room for 32.
#[derive(Drop)]
pub struct SlotList {
    slots: Vec<u32>,
}

impl Model for SlotList {
    ghost use Rattle.std.specs.Prelude.{◌≤◌, ℕ, List, vec_capacity};

    ghost Value = { List ℕ };

    ghost view = { λ l. l.slots.items };

    ghost invariant = { λ l. 32 ≤ vec_capacity l.slots };
}

impl SlotList {
    ghost use Rattle.std.specs.Prelude.{◌≡◌, ◌<◌, ◌==◌, ◌++◌, [], ◌∷◌, ℕ, List, length, slice_index, slice_set, remove, IfOk};
    ghost use Rattle.std.specs.List.{list_any};

    /// An empty list.
    pub fn new(alloc: Global) -> Result<Self, AllocError>
        ensures { IfOk result (λ list. list ≡ []) }
    {
        let slots = Vec::with_capacity(alloc, 32)?;
        Ok(SlotList { slots })
    }

    pub fn len(&self) -> usize
        ensures { result ≡ length self.now }
    {
        self.slots.len()
    }

    pub fn get(&self, place: usize) -> u32
        requires { place < length self.now }
        ensures { result ≡ slice_index self.now place }
    {
        self.slots[place]
    }

    pub fn set(&mut self, place: usize, slot: u32)
        requires { place < length self.old }
        ensures { self.new ≡ slice_set self.old place slot }
    {
        self.slots[place] = slot;
    }

    /// One slot more, at the end; it takes no memory.
    pub fn push(&mut self, slot: u32)
        requires { length self.old < 32 }
        ensures { self.new ≡ self.old ++ slot ∷ [] }
    {
        self.slots.push_reserved(slot);
    }

    /// Takes out the slot at this place; those behind it move down.
    pub fn remove(&mut self, place: usize) -> u32
        requires { place < length self.old }
        ensures slot { result ≡ slice_index self.old place }
        ensures rest { self.new ≡ remove self.old place }
    {
        self.slots.remove(place)
    }

    /// No slot is left; the room stays.
    pub fn clear(&mut self)
        ensures { self.new ≡ [] }
    {
        self.slots.clear();
    }

    pub fn contains(&self, slot: u32) -> bool
        ensures { result ≡ list_any (λ other. other == slot) self.now }
    {
        self.slots.contains(&slot)
    }

    pub fn as_slice(&self) -> &[u32]
        ensures { result.now ≡ self.now }
    {
        self.slots.as_slice()
    }
}

#[derive(Drop)]
pub struct Status {
    pub shape: Shape,
    pub target: Option<Shape>,
    pub position: u64,
    pub size: u64,
    pub length: u64,
    pub visible: u64,
    pub clean: bool,
    pub events: u64,
    pub left: u64,
    pub roles: RoleList,
    pub spares: SlotList,
}
