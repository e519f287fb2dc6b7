ghost use Rattle.std.specs.Prelude.{◌≡◌};

use bank::Bank;
use bank_file::{FileBank, FileFault, ImageFile};
use std::fs;
use std::process::Abort;
use std::test::Fail;

// Writes, and says whether that was answered Ok.
pub fn writes(rt: &impl Abort, bank: &mut impl Bank, slot: u32, at: u64, from: &[u8]) -> bool {
    assert!(rt; slot < bank.slots());
    assert!(rt; from.len() > 0);
    assert!(rt; from.len() % 512 == 0);
    assert!(rt; at <= bank.len(slot));
    assert!(rt; (from.len() / 512) as u64 <= bank.len(slot) - at);
    bank.write(slot, at, from).is_ok()
}

// Reads, and says whether that was answered Ok.
pub fn reads(rt: &impl Abort, bank: &mut impl Bank, slot: u32, at: u64, into: &mut [u8]) -> bool {
    assert!(rt; slot < bank.slots());
    assert!(rt; into.len() > 0);
    assert!(rt; into.len() % 512 == 0);
    assert!(rt; at <= bank.len(slot));
    assert!(rt; (into.len() / 512) as u64 <= bank.len(slot) - at);
    bank.read(slot, at, into).is_ok()
}

// Flushes, and says whether that was answered Ok.
pub fn flushes(rt: &impl Abort, bank: &mut impl Bank, slot: u32) -> bool {
    assert!(rt; slot < bank.slots());
    bank.flush(slot).is_ok()
}

pub fn faults(rt: &impl Abort, bank: &impl Bank, slot: u32) -> u64 {
    assert!(rt; slot < bank.slots());
    bank.faults(slot)
}

// A value that another thread may take.
fn sent<T: Send>(value: T) -> T
    ensures { result ≡ value }
{
    value
}

// Makes the folder anew, with a file of so many sevens at each of these names.
fn make_files(rt: &HostRuntime, folder: &str, files: &[(&str, usize)]) -> Result<(), Fail> {
    let _ = fs::remove_dir_all(rt, folder);
    fs::create_dir(rt, folder)?;
    for &(name, length) in files {
        let bytes = vec![in rt.alloc(); 7u8; length]?;
        fs::write(rt, name, bytes.as_slice())?;
    }
    Ok(())
}

fn open(rt: &HostRuntime, names: &[&str]) -> Result<Result<FileBank<ImageFile>, FileFault>, Fail> {
    let mut paths = Vec::new(rt.alloc());
    for name in names {
        paths.push(String::from_str(rt.alloc(), name)?)?;
    }
    Ok(FileBank::from_paths(rt, rt.alloc(), &paths))
}

#[test]
fn sectors_stand_at_their_place(rt: HostRuntime) -> Result<(), Fail> {
    let (first, second) = ("bank_file_place/0", "bank_file_place/1");
    make_files(&rt, "bank_file_place", &[(first, 2148), (second, 512)])?;
    let mut bank = sent(open(&rt, &[first, second])??);
    assert!(rt; bank.slots() == 2);
    assert!(rt; bank.len(0) == 4 && bank.len(1) == 1);
    let mut two = [1u8; 1024];
    two[512..].fill(2);
    assert!(rt; writes(&rt, &mut bank, 0, 1, &two));
    assert!(rt; flushes(&rt, &mut bank, 0));
    let mut found = [0u8; 2048];
    assert!(rt; reads(&rt, &mut bank, 0, 0, &mut found));
    let held = fs::read(&rt, first)?;
    assert!(rt; held.len() == 2148);
    for (i, &byte) in held.iter().enumerate() {
        let wanted = if i / 512 == 1 || i / 512 == 2 {
            (i / 512) as u8
        } else {
            7
        };
        assert_eq!(rt; byte, wanted, "byte {i} of the file");
        if i < 2048 {
            assert_eq!(rt; found[i], wanted, "byte {i} as the bank reads it");
        }
    }
    let other = fs::read(&rt, second)?;
    assert!(rt; other.len() == 512 && other.iter().all(|&byte| byte == 7));
    fs::remove_dir_all(&rt, "bank_file_place")?;
    Ok(())
}

#[test]
fn refused_paths_are_told_by_place(rt: HostRuntime) -> Result<(), Fail> {
    let (first, second) = ("bank_file_paths/0", "bank_file_paths/1");
    make_files(&rt, "bank_file_paths", &[(first, 512), (second, 512)])?;
    let tries = [
        ([first, "bank_file_paths/2", second], 1),
        ([first, second, "bank_file_paths/../bank_file_paths/0"], 2),
        ([first, second, "bank_file_paths"], 2),
    ];
    for (names, place) in tries {
        let answer = open(&rt, &names)?;
        assert!(rt; matches!(answer, Err(FileFault::CannotOpen(found)) if found == place));
    }
    let bank = open(&rt, &[first, second])??;
    let answer = open(&rt, &[second])?;
    assert!(rt; matches!(answer, Err(FileFault::CannotOpen(0))));
    drop(bank);
    assert!(rt; open(&rt, &[second])?.is_ok());
    fs::remove_dir_all(&rt, "bank_file_paths")?;
    Ok(())
}

#[test]
fn short_files_fail_for_good(rt: HostRuntime) -> Result<(), Fail> {
    let (first, second) = ("bank_file_short/0", "bank_file_short/1");
    make_files(&rt, "bank_file_short", &[(first, 1024), (second, 1024)])?;
    let mut bank = open(&rt, &[first, second])??;
    assert!(rt; bank.slots() == 2);
    let mut sector = [0u8; 512];
    fs::write(&rt, first, [8u8; 700].as_slice())?;
    assert!(rt; reads(&rt, &mut bank, 0, 0, &mut sector) && sector == [8; 512]);
    assert!(rt; !reads(&rt, &mut bank, 0, 1, &mut sector));
    assert!(rt; faults(&rt, &bank, 0) == 1);
    fs::write(&rt, first, [9u8; 1024].as_slice())?;
    assert!(rt;
        !reads(&rt, &mut bank, 0, 0, &mut sector) && !writes(&rt, &mut bank, 0, 0, &sector)
    );
    assert!(rt; !flushes(&rt, &mut bank, 0) && faults(&rt, &bank, 0) == 4);
    assert!(rt; reads(&rt, &mut bank, 1, 1, &mut sector) && sector == [7; 512]);
    assert!(rt; faults(&rt, &bank, 1) == 0);
    let held = fs::read(&rt, first)?;
    assert!(rt; held.iter().all(|&byte| byte == 9));
    fs::remove_dir_all(&rt, "bank_file_short")?;
    Ok(())
}
