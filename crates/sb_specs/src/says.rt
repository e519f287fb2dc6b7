//! What the newest superblock says of the array, be its fields within their limits or not.

ghost use Rattle.std.specs.Prelude.{◌≡◌, ◌<◌, ◌^◌};
ghost use Rattle.reshape_geometry.specs.raid_types_Shapes.{tolerance_of, data_disks};
ghost use Rattle.sb_specs.specs.Reading.{
  is_reshaping,
  is_recovering,
  is_clean,
  is_fresh,
  shape_of,
  target_of,
  final_shape,
  role_count,
  list_length,
  entry_of,
};

use reshape_geometry::Shape;
use sb_codec::{Features, Sb};

/// Whether a reshape is active.
pub fn is_reshaping(sb: &Sb) -> bool
    ensures { result ≡ is_reshaping sb.now }
{
    sb.feature_map & Features::RESHAPE_ACTIVE.0 != 0
}

/// Whether a slot with this superblock is recovering.
pub fn is_recovering(sb: &Sb) -> bool
    ensures { result ≡ is_recovering sb.now }
{
    sb.feature_map & Features::RECOVERY_OFFSET.0 != 0
}

/// Whether the array is clean.
pub fn is_clean(sb: &Sb) -> bool
    ensures { result ≡ is_clean sb.now }
{
    sb.resync_offset == u64::MAX
}

/// Whether a superblock is at most one event behind the newest.
pub fn is_fresh(newest: &Sb, sb: &Sb) -> bool
    ensures { result ≡ is_fresh newest.now sb.now }
{
    newest.events <= sb.events.saturating_add(1)
}

/// The disks of the shape, which is the old one while a reshape is active; none where the fields give fewer than none.
pub fn old_disks(sb: &Sb) -> u64
    ensures value { result ≡ (shape_of sb.now).disks }
    ensures short { result < 2 ^ 33 }
{
    if is_reshaping(sb) {
        let disks = i64::from(sb.raid_disks) - i64::from(sb.delta_disks);
        disks.max(0) as u64
    } else {
        sb.raid_disks.into()
    }
}

/// The shape, which is the old one while a reshape is active.
pub fn shape_of(sb: &Sb) -> Shape
    requires { (shape_of sb.now).disks < 2 ^ 32 }
    ensures { result ≡ shape_of sb.now }
{
    Shape {
        level: sb.level,
        layout: sb.layout,
        chunk: sb.chunksize,
        disks: old_disks(sb) as u32,
    }
}

/// The new shape of an active reshape.
pub fn target_of(sb: &Sb) -> Option<Shape>
    ensures { result ≡ target_of sb.now }
{
    if !is_reshaping(sb) {
        return None;
    }
    Some(Shape {
        level: sb.new_level,
        layout: sb.new_layout,
        chunk: sb.new_chunk,
        disks: sb.raid_disks,
    })
}

/// How many roles there are: the larger disk count in force.
pub fn role_count(sb: &Sb) -> u64
    ensures { result ≡ role_count sb.now }
{
    old_disks(sb).max(sb.raid_disks.into())
}

/// How many missing disks a row of this level can do without.
pub fn tolerance(level: u32) -> u64
    ensures { result ≡ tolerance_of level }
{
    if level == 6 { 2 } else { 1 }
}

/// The flat list's length in sectors: the rows, times the fewer data disks of the shapes in force.
pub fn list_length(sb: &Sb) -> u128
    ensures { result ≡ list_length sb.now }
{
    let old = old_disks(sb).saturating_sub(tolerance(sb.level));
    let data = match target_of(sb) {
        None => old,
        Some(target) => old.min(u64::from(target.disks).saturating_sub(tolerance(target.level))),
    };
    u128::from(data) * u128::from(sb.size)
}

/// The role entry of a device number; that of a faulty one where the table ends before it.
pub fn entry_of(newest: &Sb, dev: u32) -> u16
    ensures { result ≡ entry_of newest.now dev }
{
    if dev < newest.max_dev && dev < 384 {
        newest.dev_roles[dev as usize]
    } else {
        0xfffe
    }
}
