//! What an array is made as.

use array_found_laws::Shape;

/// The uuid, the shape, the rows of a member, and the sector of a member at which they begin.
#[derive(Clone, Copy)]
pub struct CreateSpec {
    pub uuid: [u8; 16],
    pub shape: Shape,
    pub size: u64,
    pub offset: u64,
}
