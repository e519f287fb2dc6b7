// Bytes at offsets, as a file has them, and what was done to them.
ghost use Rattle.std.specs.Prelude.{◌≡◌, ◌+◌, ◌-◌, ◌*◌, ◌/◌, ◌<◌, ◌≤◌, ◌^◌, ℕ, Option, length, IfOk, OnOk, OnErr};
ghost use Rattle.bank_file.specs.declared.device.Done.{Done};
ghost use Rattle.bank_file.specs.Bytes.{AreBytes, IsPut, AreSame, HasMoved, HasStumbled};
ghost use Rattle.bank_file.specs.Logs.{IsLogged, IsSynced, AreKept};

use bank::BankFault;
use std::io;

/// What a device did under one number: it put one sector's bytes, or made safe all that was put before.
#[derive(Clone, Copy)]
pub enum Done {
    Put(u64, [u8; 512]),
    Synced,
}

/// A file, as an image needs it. What it holds, and what was done to it, is told only where the type says so. The caller numbers what
/// it asks for, so that what was done to several devices stands in one order.
pub trait Device {
    /// Holds where the device tells its bytes.
    ghost tells: { Type 0 };

    /// How many bytes it has.
    ghost size: { Self → ℕ };

    /// The byte at each offset, as it was at the opening.
    ghost start: { Self → ℕ → ℕ };

    /// The byte at each offset, as it is now.
    ghost bytes: { Self → ℕ → ℕ };

    /// What was done under each of the caller's numbers.
    ghost log: { Self → ℕ → Option Done };

    /// How often it moved no byte, or didn't sync, counted up to u64's end.
    ghost stumbles: { Self → ℕ };

    fn size(&self) -> u64
        ensures { result ≡ size self.now };

    /// Moves some of the bytes from the offset on into the front of the buffer, and answers how many. 0 means the end.
    fn read_some(&mut self, into: &mut [u8], offset: u64) -> io::Result<usize>
        ensures within { IfOk result (λ count. count ≤ length into.old) }
        ensures moved { IfOk result (λ count. tells → AreBytes (bytes self.old) offset count into.new) }
        ensures same { tells → AreSame (bytes self.old) (bytes self.new) }
        ensures kept { tells → AreKept (log self.old) (log self.new) }
        ensures start { start self.new ≡ start self.old }
        ensures stumbled { tells → HasMoved result (stumbles self.old) (stumbles self.new) };

    /// Puts some of the sectors at the offset, the first of them under this number, the second under the next one, and so on, and answers
    /// how many bytes these are. A sector is put whole or not at all: so the answer is a number of whole sectors, and nothing is put
    /// where it is an `Err`.
    fn write_some(&mut self, number: u64, from: &[u8], offset: u64) -> io::Result<usize>
        requires place { 512 * (offset / 512) ≡ offset }
        requires whole { 512 * (length from.now / 512) ≡ length from.now }
        requires numbers { number + length from.now / 512 < 2 ^ 64 }
        ensures within { IfOk result (λ count. count ≤ length from.now) }
        ensures whole { IfOk result (λ count. tells → 512 * (count / 512) ≡ count) }
        ensures moved { IfOk result (λ count. tells → IsPut (bytes self.old) (bytes self.new) offset count from.now) }
        ensures logged { IfOk result (λ count. tells → IsLogged (log self.old) (log self.new) number (offset / 512) (count / 512) from.now) }
        ensures same { OnErr result (tells → AreSame (bytes self.old) (bytes self.new)) }
        ensures kept { OnErr result (tells → AreKept (log self.old) (log self.new)) }
        ensures start { start self.new ≡ start self.old }
        ensures stumbled { tells → HasMoved result (stumbles self.old) (stumbles self.new) };

    /// Makes all that was put safe, under this number. After an `Err` some of it may be.
    fn sync(&mut self, number: u64) -> io::Result<()>
        ensures synced { OnOk result (tells → IsSynced (log self.old) (log self.new) number) }
        ensures kept { OnErr result (tells → AreKept (log self.old) (log self.new)) }
        ensures same { tells → AreSame (bytes self.old) (bytes self.new) }
        ensures start { start self.new ≡ start self.old }
        ensures stumbled { OnErr result (tells → HasStumbled (stumbles self.old) (stumbles self.new)) };
}

/// Reads the whole buffer. What a signal interrupts is tried again.
pub fn read_whole<D: Device>(device: &mut D, into: &mut [u8], offset: u64) -> Result<(), BankFault>
    requires { offset + length into.old < 2 ^ 64 }
    ensures ok { OnOk result (D.tells → AreBytes (D.bytes device.old) offset (length into.old) into.new) }
    ensures same { D.tells → AreSame (D.bytes device.old) (D.bytes device.new) }
    ensures kept { D.tells → AreKept (D.log device.old) (D.log device.new) }
    ensures start { D.start device.new ≡ D.start device.old }
    ensures stumbled { OnErr result (D.tells → HasStumbled (D.stumbles device.old) (D.stumbles device.new)) }
{
    let mut done = 0;
    for _turn in 0..u64::MAX {
        if done == into.len() {
            return Ok(());
        }
        match device.read_some(&mut into[done..], offset + done as u64) {
            Ok(0) => return Err(BankFault::Failed),
            Ok(count) => done += count,
            Err(error) => {
                if error.kind() != io::ErrorKind::Interrupted {
                    return Err(BankFault::Failed);
                }
            }
        }
    }
    Err(BankFault::Failed)
}

/// Writes all sectors of the buffer in the same way, from sector `at` on. Each takes the next number. After an `Err` the first few of
/// them are written, as many as there were numbers taken. What is left of a sector that the system cut is written again.
pub fn write_whole<D: Device>(
    device: &mut D,
    number: &mut u64,
    from: &[u8],
    at: u64,
) -> Result<(), BankFault>
    requires whole { 512 * (length from.now / 512) ≡ length from.now }
    requires fits { at + length from.now / 512 < 2 ^ 55 }
    requires room { number.old + length from.now / 512 < 2 ^ 64 }
    ensures rises { number.old ≤ number.new }
    ensures within { number.new ≤ number.old + length from.now / 512 }
    ensures all { OnOk result (number.new ≡ number.old + length from.now / 512) }
    ensures put { D.tells → IsPut (D.bytes device.old) (D.bytes device.new) (512 * at) (512 * (number.new - number.old)) from.now }
    ensures logged { D.tells → IsLogged (D.log device.old) (D.log device.new) number.old at (number.new - number.old) from.now }
    ensures start { D.start device.new ≡ D.start device.old }
    ensures stumbled { OnErr result (D.tells → HasStumbled (D.stumbles device.old) (D.stumbles device.new)) }
{
    let first = *number;
    let mut done = 0;
    for _turn in 0..u64::MAX {
        if done == from.len() / 512 {
            return Ok(());
        }
        match device.write_some(
            first + done as u64,
            &from[512 * done..],
            512 * (at + done as u64),
        ) {
            Ok(count) => {
                if count < 512 {
                    return Err(BankFault::Failed);
                }
                done += count / 512;
                *number = first + done as u64;
            }
            Err(error) => {
                if error.kind() != io::ErrorKind::Interrupted {
                    return Err(BankFault::Failed);
                }
            }
        }
    }
    Err(BankFault::Failed)
}
