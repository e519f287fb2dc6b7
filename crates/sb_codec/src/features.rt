//! The bits of a superblock's feature map.

ghost use Rattle.std.specs.Prelude.{⊤, ◌≡◌, [], ◌∷◌, codes};
ghost use Rattle.sb_codec.specs.Features.{refused_bits};

use crate::sb::Sb;
use bitflags::{Flag, Flags, bitflag_items};

/// What a superblock's array makes use of.
#[derive(Clone, Copy, PartialEq, Eq, Debug)]
pub struct Features(pub u32);

bitflag_items! {
    impl Features: u32 {
        const BITMAP = 1;
        const RECOVERY_OFFSET = 2;
        const RESHAPE_ACTIVE = 4;
        const BAD_BLOCKS = 8;
        const REPLACEMENT = 16;
        const RESHAPE_BACKWARDS = 32;
        const NEW_OFFSET = 64;
        const JOURNAL = 512;
        const PPL = 1024;
    }
}

impl Flags for Features {
    type Bits = u32;

    ghost exact = { ⊤ };

    ghost table = { (codes "BITMAP", 1) ∷ (codes "RECOVERY_OFFSET", 2) ∷ (codes "RESHAPE_ACTIVE", 4) ∷ (codes "BAD_BLOCKS", 8)
        ∷ (codes "REPLACEMENT", 16) ∷ (codes "RESHAPE_BACKWARDS", 32) ∷ (codes "NEW_OFFSET", 64) ∷ (codes "JOURNAL", 512)
        ∷ (codes "PPL", 1024) ∷ [] };

    ghost set_of = { λ p. p.0 };

    fn flags<'a>() -> &'a [Flag<Features>] {
        Features::FLAGS
    }

    fn bits(&self) -> u32 {
        self.0
    }

    fn from_bits_retain(bits: u32) -> Features {
        Features(bits)
    }
}

impl Features {
    /// The bits of this superblock.
    pub fn of(sb: &Sb) -> Features
        ensures { result.0 ≡ sb.now.feature_map }
    {
        Features(sb.feature_map)
    }

    /// The bits for which an array is refused: those other than a recovery offset's and a reshape's.
    pub fn refused(self) -> Features
        ensures { result.0 ≡ refused_bits self.0 }
    {
        let accepted = Features::RECOVERY_OFFSET
            .union(Features::RESHAPE_ACTIVE)
            .union(Features::RESHAPE_BACKWARDS);
        self.difference(accepted)
    }
}
