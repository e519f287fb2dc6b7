//! What is told of a row.

/// What a row is judged to be.
#[derive(Clone, Copy, Debug, PartialEq, Eq)]
pub enum Judged {
    /// Its equations hold.
    Good,
    /// They don't, and other contents of the sector of this role alone would make them hold. It is the only such role.
    Suspect(u32),
    /// They don't, and no role is so.
    Unknown,
}
