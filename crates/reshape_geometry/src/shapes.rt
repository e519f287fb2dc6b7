//! The full data stripes of shapes, and the list that two shapes share.

ghost use Rattle.std.specs.Prelude.{◌≡◌, ◌^◌, ◌<◌, ◌≤◌, IsTrue};
ghost use Rattle.raid_types.specs.Shapes.{data_disks, stripe_sectors, is_valid_shape};
ghost use Rattle.reshape_geometry.specs.Geometry.{list_end, AreInForce};

use raid_types::Shape;

/// The disks of a row that hold data: all but one at level 5, all but two at level 6.
pub fn data_disks(shape: &Shape) -> u64
    requires { IsTrue (is_valid_shape shape.now) }
    ensures { result ≡ data_disks shape.now }
{
    let parities = if shape.level == 6 { 2 } else { 1 };
    u64::from(shape.disks - parities)
}

/// The sectors of a full data stripe.
pub fn stripe_sectors(shape: &Shape) -> u64
    requires { IsTrue (is_valid_shape shape.now) }
    ensures value { result ≡ stripe_sectors shape.now }
    ensures positive { 0 < result }
{
    u64::from(shape.chunk) * data_disks(shape)
}

/// Where the flat list ends while both shapes are in force: the fewer data disks, over all rows.
pub fn list_end(old: &Shape, new: &Shape, size: u64) -> u64
    requires { AreInForce old.now new.now size }
    ensures value { result ≡ list_end old.now new.now size }
    ensures short { result ≤ 2 ^ 53 }
{
    data_disks(old).min(data_disks(new)) * size
}
