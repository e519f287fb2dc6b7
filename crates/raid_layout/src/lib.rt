//! Where each sector of the flat list stands, and where the parity of each row.
#![tactic(auto)]

ghost use Rattle.std.specs.Prelude.{◌≡◌, ◌≢◌, ℕ, ◌*◌, ◌^◌, ◌<◌, ◌↔◌, IsTrue, IsNone, IsSome, IfSome};
ghost use Rattle.raid_types.specs.Shapes.{is_valid_shape, is_multiple, data_disks};
ghost use Rattle.raid_layout.specs.Layout.{place, row_roles, IsParity, StandsAt, is_parity_only};

mod ring;

use raid_types::RowRoles;
pub use raid_types::{Place, Refusal, Role, Shape, Side, Span};
use ring::Ring;

/// The place of sector `x` of the flat list.
pub fn place(shape: &Shape, x: u64) -> Place
    requires shape { IsTrue (is_valid_shape shape.now) }
    requires sector { x < 2 ^ 53 }
    ensures place { result ≡ place shape.now x }
    ensures role { result.role < shape.now.disks }
    ensures data { ¬ IsParity (row_roles shape.now result.row) result.role }
    ensures row { (size : ℕ) → IsTrue (is_multiple size shape.now.chunk) → x < data_disks shape.now * size → result.row < size }
{
    let ring = Ring::of(shape);
    let chunk = shape.chunk as u64;
    let data = ring.data() as u64;
    let stripe = x / chunk / data;
    let index = (x / chunk % data) as u32;
    Place {
        role: ring.data_role(ring.p(stripe), index),
        row: stripe * chunk + x % chunk,
    }
}

/// The parity roles of this row.
pub fn row_of(shape: &Shape, row: u64) -> RowRoles
    requires shape { IsTrue (is_valid_shape shape.now) }
    requires row { row < 2 ^ 53 }
    ensures roles { result ≡ row_roles shape.now row }
    ensures p { result.p < shape.now.disks }
    ensures q { IfSome result.q (λ q. (q < shape.now.disks) × (q ≢ result.p)) }
    ensures level { IsSome result.q ↔ (shape.now.level ≡ 6) }
{
    let ring = Ring::of(shape);
    let p = ring.p(row / shape.chunk as u64);
    let q = if ring.disks < shape.disks {
        Some(ring.disks)
    } else if ring.parities == 2 {
        Some((p + 1) % ring.disks)
    } else {
        None
    };
    RowRoles {
        disks: shape.disks,
        p,
        q,
    }
}

/// The sector of the flat list that stands on this role in this row, or None where parity does.
pub fn at(shape: &Shape, role: u32, row: u64) -> Option<u64>
    requires shape { IsTrue (is_valid_shape shape.now) }
    requires role { role < shape.now.disks }
    requires row { row < 2 ^ 53 }
    ensures stands { StandsAt shape.now role row result }
    ensures parity { IsNone result ↔ IsParity (row_roles shape.now row) role }
    ensures back { (x : ℕ) → place shape.now x ≡ record { role = role; row = row } → result ≡ Some x }
{
    let roles = row_of(shape, row);
    if role == roles.p || roles.q == Some(role) {
        return None;
    }
    let ring = Ring::of(shape);
    let chunk = shape.chunk as u64;
    let index = ring.data_index(roles.p, role) as u64;
    let stripe = row / chunk;
    Some((stripe * ring.data() as u64 + index) * chunk + row % chunk)
}

/// Whether the role has parity in every row.
pub fn parity_only(shape: &Shape, role: u32) -> bool
    requires shape { IsTrue (is_valid_shape shape.now) }
    requires role { role < shape.now.disks }
    ensures value { result ≡ is_parity_only shape.now role }
    ensures all { IsTrue result ↔ ((x : ℕ) → (place shape.now x).role ≢ role) }
{
    Ring::of(shape).has_only_parity(role)
}
