//! The file systems, volumes and partition tables that are known, each by a magic in its place.

ghost use Rattle.std.specs.Prelude.{◌≡◌, ◌≤◌, length};
ghost use Rattle.tool_warnings.specs.Systems.{all_systems, place_of, magic_of, words_of, has_magic, system_in};

/// What a file may hold that somebody wants to keep.
#[derive(Clone, Copy, Debug, PartialEq, Eq)]
pub enum System {
    Luks,
    Xfs,
    Ext,
    Btrfs,
    Swap,
    Gpt,
    Mbr,
}

const SYSTEMS: [System; 7] = [
    System::Luks,
    System::Xfs,
    System::Ext,
    System::Btrfs,
    System::Swap,
    System::Gpt,
    System::Mbr,
];

// The byte of the file at which the magic begins.
fn place_of(system: System) -> usize
    ensures place { result ≡ place_of system }
    ensures near { result ≤ 65600 }
{
    match system {
        System::Luks | System::Xfs => 0,
        System::Ext => 1080,
        System::Btrfs => 65_600,
        System::Swap => 4086,
        System::Gpt => 512,
        System::Mbr => 510,
    }
}

fn magic_of(system: System) -> &'static [u8]
    ensures magic { result.now ≡ magic_of system }
    ensures short { length result.now ≤ 10 }
{
    match system {
        System::Luks => b"LUKS\xba\xbe",
        System::Xfs => b"XFSB",
        System::Ext => b"\x53\xef",
        System::Btrfs => b"_BHRfS_M",
        System::Swap => b"SWAPSPACE2",
        System::Gpt => b"EFI PART",
        System::Mbr => b"\x55\xaa",
    }
}

/// What it is, in words.
pub fn words_of(system: System) -> &'static str
    ensures { result.now ≡ words_of system }
{
    match system {
        System::Luks => "a LUKS volume",
        System::Xfs => "an XFS file system",
        System::Ext => "an ext2, ext3 or ext4 file system",
        System::Btrfs => "a Btrfs file system",
        System::Swap => "a swap area",
        System::Gpt => "a GPT partition table",
        System::Mbr => "an MBR partition table",
    }
}

fn has_magic(front: &[u8], system: System) -> bool
    ensures { result ≡ has_magic front.now system }
{
    let place = place_of(system);
    let magic = magic_of(system);
    let end = place + magic.len();
    end <= front.len() && &front[place..end] == magic
}

/// The first of the known ones whose magic stands in a file's first bytes.
pub fn system_in(front: &[u8]) -> Option<System>
    ensures { result ≡ system_in all_systems front.now }
{
    first_in(&SYSTEMS, front)
}

// The first of these.
fn first_in(systems: &[System], front: &[u8]) -> Option<System>
    ensures { result ≡ system_in systems.now front.now }
{
    for system in systems {
        if has_magic(front, *system) {
            return Some(*system);
        }
    }
    None
}
