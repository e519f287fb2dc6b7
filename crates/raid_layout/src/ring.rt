//! The roles that a layout's data and parity go round.

ghost use Rattle.std.specs.Prelude.{◌≡◌, ◌≢◌, ℕ, ◌+◌, ◌-◌, ◌%◌, ◌<◌, ◌≤◌, ◌↔◌, IsTrue, if◌then◌else◌};
ghost use Rattle.raid_types.specs.Shapes.{is_valid_shape, data_disks};
ghost use Rattle.raid_layout.specs.Fixed.{HasFixedParity};
ghost use Rattle.raid_layout.specs.Layout.{is_six_over_five, p_role, data_role, is_symmetric};

use raid_types::Shape;

/// The roles below `disks`, which the data of a stripe goes round, beginning at or behind so many parity disks.
/// That is all roles, except where level 6 stands over a level 5 layout and keeps the last role for Q.
#[derive(Clone, Copy)]
pub struct Ring {
    pub layout: u32,
    pub disks: u32,
    pub parities: u32,
    ghost few: { disks ≤ 16 },
    ghost layouts: { layout ≤ 5 },
    ghost some: { 0 < parities },
    ghost one_or_two: { parities ≤ 2 },
    ghost has_data: { parities < disks },
}

impl Ring {
    #[tactic(auto, using(crate::proofs::Limits::limited))]
    pub fn of(shape: &Shape) -> Self
        requires { IsTrue (is_valid_shape shape.now) }
        ensures layout { result.layout ≡ (if is_six_over_five shape.now then shape.now.layout - 16 else shape.now.layout) }
        ensures disks { result.disks ≡ (if is_six_over_five shape.now then shape.now.disks - 1 else shape.now.disks) }
        ensures data_disks { result.disks ≡ data_disks shape.now + result.parities }
    {
        match shape.level {
            6 if shape.layout >= 16 => Ring {
                layout: shape.layout - 16,
                disks: shape.disks - 1,
                parities: 1,
            },
            6 => Ring {
                layout: shape.layout,
                disks: shape.disks,
                parities: 2,
            },
            _ => Ring {
                layout: shape.layout,
                disks: shape.disks,
                parities: 1,
            },
        }
    }

    /// How many disks of a stripe have data.
    pub fn data(&self) -> u32
        ensures { result ≡ self.now.disks - self.now.parities }
    {
        self.disks - self.parities
    }

    /// The role of P in this stripe.
    pub fn p(&self, stripe: u64) -> u32
        ensures role { result ≡ p_role self.now.layout self.now.disks (self.now.disks - self.now.parities) stripe }
        ensures below { result < self.now.disks }
    {
        let turn = (stripe % self.disks as u64) as u32;
        match self.layout {
            0 | 2 => self.disks - 1 - turn,
            1 | 3 => turn,
            4 => 0,
            _ => self.data(),
        }
    }

    fn is_symmetric(&self) -> bool
        ensures { result ≡ is_symmetric self.now.layout }
    {
        self.layout == 2 || self.layout == 3
    }

    /// The role of this data in a stripe whose P has role `p`.
    pub fn data_role(&self, p: u32, index: u32) -> u32
        requires p { p < self.now.disks }
        requires index { index < self.now.disks - self.now.parities }
        ensures { result ≡ data_role self.now.layout self.now.disks self.now.parities p index }
    {
        let behind = p + self.parities;
        if self.is_symmetric() {
            (behind + index) % self.disks
        } else if self.disks < behind {
            index + (behind - self.disks)
        } else if p <= index {
            index + self.parities
        } else {
            index
        }
    }

    /// Which data of a stripe, whose P has role `p`, stands on a role that has no parity.
    pub fn data_index(&self, p: u32, role: u32) -> u32
        requires p { p < self.now.disks }
        requires role { role < self.now.disks }
        requires not_p { role ≢ p }
        requires not_q { self.now.parities ≡ 2 → role ≢ (p + 1) % self.now.disks }
        ensures below { result < self.now.disks - self.now.parities }
        ensures role { data_role self.now.layout self.now.disks self.now.parities p result ≡ role }
    {
        let behind = p + self.parities;
        if self.disks < behind {
            role - (behind - self.disks)
        } else if role < p {
            if self.is_symmetric() {
                role + (self.disks - behind)
            } else {
                role
            }
        } else if self.is_symmetric() {
            role - behind
        } else {
            role - self.parities
        }
    }

    /// Whether the role has parity in each stripe: on the fixed places of layouts 4 and 5, and behind the ring.
    pub fn has_only_parity(&self, role: u32) -> bool
        ensures { IsTrue result ↔ HasFixedParity self.now.layout self.now.disks self.now.parities role }
    {
        match self.layout {
            4 => role < self.parities || self.disks <= role,
            5 => self.data() <= role,
            _ => self.disks <= role,
        }
    }
}
