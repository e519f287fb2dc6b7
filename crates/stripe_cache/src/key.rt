//! What a row is found by, and what is kept of it.

ghost use Rattle.std.specs.Prelude.{◌≡◌, ◌*◌, length, bit_or, if◌then◌else◌, IfOk};
ghost use Rattle.stripe_cache.specs.Rows.{same_side};
ghost use Rattle.raid_types.specs.Sectors.{sectors_of, IsWhole};

use raid_types::{Sectors, Side};
use std::alloc::{AllocError, Global};
use std::marker::Model;

#[derive(Clone, Copy, PartialEq, Eq, Hash)]
pub struct Key {
    pub is_new: bool,
    pub row: u64,
}

/// The bytes of a row, whole sectors, and its changed roles.
#[derive(Drop)]
pub struct Held {
    bytes: Vec<u8>,
    changed: u32,
}

impl Model for Held {
    ghost use Rattle.raid_types.specs.Sectors.{sectors_of, IsWhole};
    ghost use Rattle.stripe_cache.specs.HeldRow.{HeldRow};

    ghost Value = { HeldRow };

    ghost view = { λ h. record { body = sectors_of h.bytes.items; changed = h.changed } };

    ghost invariant = { λ h. IsWhole h.bytes.items };
}

impl Held {
    pub fn new(alloc: Global, from: &[u8], changed: u32) -> Result<Self, AllocError>
        requires { IsWhole from.now }
        ensures { IfOk result (λ h. h ≡ record { body = sectors_of from.now; changed = changed }) }
    {
        Ok(Held {
            bytes: from.to_vec(alloc)?,
            changed,
        })
    }

    pub fn changed(&self) -> u32
        ensures { result ≡ self.now.changed }
    {
        self.changed
    }

    pub fn copy_to(&self, into: &mut [u8])
        requires { length into.old ≡ 512 * length self.now.body }
        ensures { sectors_of into.new ≡ self.now.body }
    {
        into.copy_from_slice(&self.bytes);
    }

    /// Takes these bytes, and adds the changed roles to those that it has.
    pub fn replace(&mut self, from: &[u8], changed: u32)
        requires { length from.now ≡ 512 * length self.old.body }
        ensures { self.new ≡ record { body = sectors_of from.now; changed = bit_or self.old.changed changed } }
    {
        self.bytes.as_mut_slice().copy_from_slice(from);
        self.changed |= changed;
    }

    pub fn into_body(self) -> Sectors
        ensures { result ≡ self.body }
    {
        let Held { bytes, changed: _ } = self;
        Sectors::from_bytes(bytes)
    }
}

impl Key {
    ghost use Rattle.stripe_cache.specs.View.{key_of};

    pub fn of(side: Side, row: u64) -> Self
        ensures { result ≡ key_of side row }
    {
        let is_new = match side {
            Side::Old => false,
            Side::New => true,
        };
        Key { is_new, row }
    }

    pub fn side(self) -> Side
        ensures { result ≡ (if self.is_new then Side.New else Side.Old) }
    {
        if self.is_new { Side::New } else { Side::Old }
    }

    /// Whether the row is one of this side.
    pub fn is_on(self, side: Side) -> bool
        ensures { result ≡ same_side side (if self.is_new then Side.New else Side.Old) }
    {
        match side {
            Side::Old => !self.is_new,
            Side::New => self.is_new,
        }
    }
}
