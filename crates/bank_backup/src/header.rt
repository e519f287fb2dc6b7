//! The header's bytes, in sector 0 of the backup slot.

ghost use Rattle.std.specs.Prelude.{◌≡◌, ◌+◌, ◌≤◌, ◌++◌, ◌&&◌, length, take, drop, ◌↔◌, IsTrue, IsSome, IfSome, slice_range};
ghost use Rattle.bank.specs.raid_types_Bytes.{field};
ghost use Rattle.bank_backup.specs.Header.{has_magic, fields_in};
ghost use Rattle.bank_backup.specs.Section.{is_header_of, names_span};
ghost use Rattle.bank_backup.specs.Written.{header_with};

use bank::Span;
use byteorder::{ByteOrder, LittleEndian};

const MAGIC: &[u8; 16] = b"md_backup_data-1";

/// The sector of the slot in which a section begins.
pub const SECTION_START: u64 = 8;

/// What a header says: whose it is, and of its section the first sector in the slot, the first sector in the array's list,
/// and the length in sectors, which is 0 where there is no section.
#[derive(Clone, Copy, Debug, PartialEq, Eq)]
pub struct Header {
    pub uuid: [u8; 16],
    pub devstart: u64,
    pub arraystart: u64,
    pub length: u64,
}

/// What the header in this sector says; None exactly where the sector doesn't begin with the header's magic. The fields
/// are given as they stand there, be they sensible or not.
pub fn decode(sector: &[u8; 512]) -> Option<Header>
    ensures magic { IsSome result ↔ IsTrue (has_magic sector.now) }
    ensures fields { IfSome result (λ header. header ≡ fields_in sector.now) }
{
    if sector[..16] != MAGIC[..] {
        return None;
    }
    Some(Header {
        uuid: uuid_in(sector),
        devstart: u64_at(sector, 40),
        arraystart: u64_at(sector, 48),
        length: u64_at(sector, 56),
    })
}

/// The header of the array of this uuid, for a section of `length` sectors that begins with the sector `arraystart` of the
/// array's list; for none, where the length is 0.
pub fn encode(uuid: &[u8; 16], arraystart: u64, length: u64) -> [u8; 512]
    ensures { result ≡ header_with uuid.now arraystart length }
{
    let mut sector = [0u8; 512];
    put(&mut sector, 0, MAGIC);
    put(&mut sector, 40, &SECTION_START.to_le_bytes());
    put(&mut sector, 48, &arraystart.to_le_bytes());
    put(&mut sector, 56, &length.to_le_bytes());
    put(&mut sector, 16, uuid);
    sector
}

// Puts bytes in place.
fn put(sector: &mut [u8; 512], at: usize, bytes: &[u8])
    requires { at + length bytes.now ≤ 512 }
    ensures { sector.new ≡ take at sector.old ++ (bytes.now ++ drop (at + length bytes.now) sector.old) }
{
    sector[at..at + bytes.len()].copy_from_slice(bytes);
}

/// Whether these bytes are the array's header, of a section that holds this span and no other sector.
pub fn names(sector: &[u8; 512], uuid: &[u8; 16], span: &Span) -> bool
    ensures { result ≡ (is_header_of uuid.now sector.now && names_span sector.now span.now) }
{
    match decode(sector) {
        None => false,
        Some(header) => {
            header.uuid == *uuid
                && header.devstart == SECTION_START
                && header.arraystart == span.lo
                && span.lo < span.hi
                && header.length == span.hi - span.lo
        }
    }
}

fn uuid_in(sector: &[u8; 512]) -> [u8; 16]
    ensures { result ≡ slice_range sector.now 16 32 }
{
    let mut uuid = [0; 16];
    uuid.copy_from_slice(&sector[16..32]);
    uuid
}

// The number in the eight bytes from this place on, the lowest first.
fn u64_at(sector: &[u8; 512], offset: usize) -> u64
    requires { offset + 8 ≤ 512 }
    ensures { result ≡ field sector.now offset 8 }
{
    LittleEndian::read_u64(&sector[offset..])
}
