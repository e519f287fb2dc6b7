//! The superblocks of a running array, as the bank's slots hold them.

use bank::{RoleList, SlotList};
use sb_codec::Sb;
use std::alloc::{AllocError, Global};
use std::marker::Model;

/// The own superblock of each of 32 slots; None where it has none of the array.
#[derive(Drop)]
pub struct SbList {
    superblocks: Vec<Option<Sb>>,
}

impl Model for SbList {
    ghost use Rattle.std.specs.Prelude.{◌≡◌, List, Option, length};
    ghost use Rattle.sb_codec.specs.declared.sb.Sb.{Sb};

    ghost Value = { List (Option Sb) };

    ghost view = { λ l. l.superblocks.items };

    ghost invariant = { λ l. length l.superblocks.items ≡ 32 };
}

impl SbList {
    ghost use Rattle.std.specs.Prelude.{◌≡◌, ◌<◌, None, length, replicate, slice_index_or, slice_set, IfOk};
    ghost use Rattle.std.specs.Option.{option_copied};

    /// No slot has a superblock.
    pub fn new(alloc: Global) -> Result<Self, AllocError>
        ensures { IfOk result (λ list. list ≡ replicate 32 None) }
    {
        let superblocks = vec![in alloc; None; 32]?;
        Ok(SbList { superblocks })
    }

    /// The superblock of this slot.
    pub fn get(&self, slot: u32) -> Option<&Sb>
        requires { slot < 32 }
        ensures own { option_copied result ≡ slice_index_or self.now slot None }
        ensures count { length self.now ≡ 32 }
    {
        self.superblocks[slot as usize].as_ref()
    }

    pub fn as_slice(&self) -> &[Option<Sb>]
        ensures all { result.now ≡ self.now }
        ensures count { length self.now ≡ 32 }
    {
        self.superblocks.as_slice()
    }

    /// Another one for this slot; it takes no memory.
    pub fn set(&mut self, slot: u32, superblock: Option<Sb>)
        requires { slot < 32 }
        ensures own { self.new ≡ slice_set self.old slot superblock }
        ensures count { length self.new ≡ 32 }
    {
        self.superblocks[slot as usize] = superblock;
    }
}

/// The newest superblock, the own one of each slot, the state of each role, the live spares, and a bit for each slot
/// that was lost.
#[derive(Drop)]
pub struct Members {
    pub newest: Sb,
    pub own: SbList,
    pub roles: RoleList,
    pub spares: SlotList,
    pub lost: u32,
}
