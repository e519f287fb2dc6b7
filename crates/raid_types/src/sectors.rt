//! A list of sectors.

use std::alloc::{AllocError, Global};
use std::marker::Model;

/// Whole sectors of 512 bytes, kept as one run of bytes; contracts see the list of the sectors.
#[derive(Drop)]
pub struct Sectors {
    bytes: Vec<u8>,
}

impl Model for Sectors {
    ghost use Rattle.std.specs.Prelude.{◌≡◌, ℕ, List};
    ghost use Rattle.raid_types.specs.Sectors.{sectors_of, IsWhole};

    ghost Value = { List (List ℕ) };

    ghost view = { λ s. sectors_of s.bytes.items };

    ghost invariant = { λ s. IsWhole s.bytes.items };
}

impl Sectors {
    ghost use Rattle.std.specs.Prelude.{◌≡◌, ℕ, List, length, IfOk};
    ghost use Rattle.raid_types.specs.Sectors.{sectors_of, IsWhole};

    /// The sectors in these bytes, which stay where they are.
    pub fn from_bytes(bytes: Vec<u8>) -> Self
        requires { IsWhole bytes.items }
        ensures { result ≡ sectors_of bytes.items }
    {
        Sectors { bytes }
    }

    /// A copy of these bytes.
    pub fn copy_of(alloc: Global, bytes: &[u8]) -> Result<Self, AllocError>
        requires { IsWhole bytes.now }
        ensures { IfOk result (λ s. s ≡ sectors_of bytes.now) }
    {
        let mut copy = Vec::new(alloc);
        copy.extend_from_slice(bytes)?;
        Ok(Sectors::from_bytes(copy))
    }

    /// A copy of these sectors.
    pub fn try_clone(&self, alloc: Global) -> Result<Self, AllocError>
        ensures { IfOk result (λ s. s ≡ self.now) }
    {
        Sectors::copy_of(alloc, self.as_bytes())
    }

    /// The bytes of the sectors, one after the other.
    pub fn as_bytes(&self) -> &[u8]
        ensures sectors { sectors_of result.now ≡ self.now }
        ensures whole { IsWhole result.now }
    {
        self.bytes.as_slice()
    }

    /// How many sectors there are.
    pub fn count(&self) -> usize
        ensures { result ≡ length self.now }
    {
        self.as_bytes().len() / 512
    }
}
