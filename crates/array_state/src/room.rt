//! The memory of an array.

ghost use Rattle.std.specs.Prelude.{◌≡◌, ◌≤◌, [], length, vec_capacity, IfOk, IfErr};
ghost use Rattle.array_call_laws.specs.raid_types_the_Fault_TheVariants.{NoMemory as WantsMemory};

use array_call_laws::{Entries, Fault, NoMemory};
use std::alloc::Global;

/// What an array keeps in memory: an empty history with room for its end, and the buffers of a write.
#[derive(Drop)]
pub struct Room {
    pub entries: Entries,
    pub rows: Vec<u64>,
    pub buffer: Vec<u8>,
}

/// The memory of an array that begins: room for 17 entries and 128 rows, and 1048576 bytes. Refused only for want of it.
///
/// The entries, which outlive the array, are taken last: what is given back below them stays with the process for the next opening.
pub fn room_for(alloc: Global) -> Result<Room, NoMemory>
    ensures empty { IfOk result (λ room. room.entries.items ≡ []) }
    ensures entries { IfOk result (λ room. 17 ≤ room.entries.room) }
    ensures rows { IfOk result (λ room. 128 ≤ vec_capacity room.rows) }
    ensures buffer { IfOk result (λ room. length room.buffer.items ≡ 1048576) }
{
    let rows = match Vec::with_capacity(alloc, 128) {
        Ok(rows) => rows,
        Err(_) => return Err(NoMemory {}),
    };
    let buffer = match vec![in alloc; 0u8; 1048576] {
        Ok(buffer) => buffer,
        Err(_) => return Err(NoMemory {}),
    };
    let mut entries = Entries::new(alloc);
    match entries.make_room(17) {
        Ok(()) => {}
        Err(_) => return Err(NoMemory {}),
    }
    Ok(Room {
        entries,
        rows,
        buffer,
    })
}

/// So many zero bytes; refused only for want of memory.
pub fn zeros(alloc: Global, len: usize) -> Result<Vec<u8>, Fault>
    ensures no_memory { IfErr result (λ fault. fault ≡ WantsMemory) }
    ensures len { IfOk result (λ v. length v.items ≡ len) }
{
    match vec![in alloc; 0u8; len] {
        Ok(bytes) => Ok(bytes),
        Err(_) => Err(Fault::NoMemory),
    }
}
