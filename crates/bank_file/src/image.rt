// A file in sectors, whose failures are counted.
ghost use Rattle.std.specs.Prelude.{◌≡◌, ◌⊎◌, ◌*◌, ◌+◌, ◌-◌, ◌/◌, ◌<◌, ◌≤◌, ◌^◌, ℕ, true, false, length, OnOk, OnErr, IsErr};
ghost use Rattle.bank_file.specs.Bytes.{AreBytes, IsPut, AreSame, HasStumbled};
ghost use Rattle.bank_file.specs.Logs.{IsLogged, IsSynced, AreKept};
ghost use Rattle.bank_file.specs.Counted.{IsCounted};

use crate::device::{Device, read_whole, write_whole};
use bank::BankFault;

/// An image, its length in sectors, and how often it has failed.
#[derive(Drop)]
pub struct Image<D> {
    pub device: D,
    pub sectors: u64,
    pub faults: u64,
    ghost short: { sectors < 2 ^ 55 },
}

// Whether so many operations more can be numbered.
fn has_room(number: u64, more: u64) -> bool
    ensures yes { result ≡ true → number + more < 2 ^ 64 }
    ensures no { result ≡ false → 2 ^ 64 ≤ number + more }
{
    more <= u64::MAX - number
}

impl<D> Image<D> {
    /// The whole sectors of a device of so many bytes.
    pub fn new(device: D, bytes: u64) -> Image<D>
        ensures device { result.device ≡ device }
        ensures sectors { result.sectors ≡ bytes / 512 }
        ensures faults { result.faults ≡ 0 }
    {
        Image {
            device,
            sectors: bytes / 512,
            faults: 0,
        }
    }

    // Counts a failure.
    fn fail(&mut self) -> Result<(), BankFault>
        ensures err { IsErr result }
        ensures counted { IsCounted self.old.faults self.new.faults result }
        ensures sectors { self.new.sectors ≡ self.old.sectors }
        ensures device { self.new.device ≡ self.old.device }
    {
        self.faults = self.faults.saturating_add(1);
        Err(BankFault::Failed)
    }
}

impl<D: Device> Image<D> {
    /// Reads the sectors from `at` on.
    pub fn read(&mut self, at: u64, into: &mut [u8]) -> Result<(), BankFault>
        requires whole { 512 * (length into.old / 512) ≡ length into.old }
        requires within { at + length into.old / 512 ≤ self.old.sectors }
        ensures ok { OnOk result (D.tells → AreBytes (D.bytes self.old.device) (512 * at) (length into.old) into.new) }
        ensures same { D.tells → AreSame (D.bytes self.old.device) (D.bytes self.new.device) }
        ensures kept { D.tells → AreKept (D.log self.old.device) (D.log self.new.device) }
        ensures start { D.start self.new.device ≡ D.start self.old.device }
        ensures failed { OnErr result (D.tells → (0 < self.old.faults) ⊎ HasStumbled (D.stumbles self.old.device) (D.stumbles self.new.device)) }
        ensures counted { IsCounted self.old.faults self.new.faults result }
        ensures sectors { self.new.sectors ≡ self.old.sectors }
    {
        if self.faults == 0 && read_whole(&mut self.device, into, 512 * at).is_ok() {
            return Ok(());
        }
        self.fail()
    }

    /// Writes the sectors from `at` on, under the numbers from `number` on, which afterwards is the next one. After an `Err` the first
    /// few of them are written, as many as there were numbers taken. Where there are no more numbers, nothing is written.
    pub fn write(&mut self, number: &mut u64, at: u64, from: &[u8]) -> Result<(), BankFault>
        requires whole { 512 * (length from.now / 512) ≡ length from.now }
        requires within { at + length from.now / 512 ≤ self.old.sectors }
        ensures rises { number.old ≤ number.new }
        ensures few { number.new ≤ number.old + length from.now / 512 }
        ensures all { OnOk result (number.new ≡ number.old + length from.now / 512) }
        ensures put { D.tells → IsPut (D.bytes self.old.device) (D.bytes self.new.device) (512 * at) (512 * (number.new - number.old)) from.now }
        ensures logged { D.tells → IsLogged (D.log self.old.device) (D.log self.new.device) number.old at (number.new - number.old) from.now }
        ensures start { D.start self.new.device ≡ D.start self.old.device }
        ensures failed { OnErr result (D.tells → (0 < self.old.faults) ⊎ (2 ^ 64 ≤ number.old + length from.now / 512)
            ⊎ HasStumbled (D.stumbles self.old.device) (D.stumbles self.new.device)) }
        ensures counted { IsCounted self.old.faults self.new.faults result }
        ensures sectors { self.new.sectors ≡ self.old.sectors }
    {
        if self.faults == 0
            && has_room(*number, (from.len() / 512) as u64)
            && write_whole(&mut self.device, number, from, at).is_ok()
        {
            return Ok(());
        }
        self.fail()
    }

    /// Makes what was written safe, under this number, which afterwards is the next one.
    pub fn flush(&mut self, number: &mut u64) -> Result<(), BankFault>
        ensures done { OnOk result (number.new ≡ number.old + 1) }
        ensures stays { OnErr result (number.new ≡ number.old) }
        ensures synced { OnOk result (D.tells → IsSynced (D.log self.old.device) (D.log self.new.device) number.old) }
        ensures kept { OnErr result (D.tells → AreKept (D.log self.old.device) (D.log self.new.device)) }
        ensures same { D.tells → AreSame (D.bytes self.old.device) (D.bytes self.new.device) }
        ensures start { D.start self.new.device ≡ D.start self.old.device }
        ensures failed { OnErr result (D.tells → (0 < self.old.faults) ⊎ (2 ^ 64 ≤ number.old + 1)
            ⊎ HasStumbled (D.stumbles self.old.device) (D.stumbles self.new.device)) }
        ensures counted { IsCounted self.old.faults self.new.faults result }
        ensures sectors { self.new.sectors ≡ self.old.sectors }
    {
        if self.faults == 0 && has_room(*number, 1) && self.device.sync(*number).is_ok() {
            *number += 1;
            return Ok(());
        }
        self.fail()
    }
}
