//! A whole run over devices, such as image files.

ghost use Rattle.std.specs.Prelude.{◌≡◌, ◌⊎◌, ◌<◌, ◌≤◌, ◌+◌, ◌-◌, true, length, map, string_bytes, None, IfSome, IsSome};
ghost use Rattle.run_scripts.specs.bank_Given.{NeverFalls};
ghost use Rattle.run_scripts.specs.array_members_Moving.{Grows};
ghost use Rattle.run_scripts.specs.script_io_Causes.{HasRisen};
ghost use Rattle.bank_file.specs.Images.{given_of, faults_in, tape_in};
ghost use Rattle.script_argv.specs.Words.{command_in, is_parsed, slots_for, backup_in, demo_in};
ghost use Rattle.run_scripts.specs.history_monitor_Hooks.{wanted_by};
ghost use Rattle.run_scripts.specs.history_monitor_Urgent.{WantsUrgent};
ghost use Rattle.run_scripts.specs.lane_shared_Pace.{AnswersSteps, asked_by};
ghost use Rattle.run_scripts.specs.run_specs_Ended.{AreLegal, AreRight};
ghost use Rattle.run_scripts.specs.Complete.{HasNotFailed, IsComplete, EndsWell};
ghost use Rattle.run_scripts.specs.Done.{NoneFailed, AreUnfailed};
ghost use Rattle.run_scripts.specs.Kept.{AreKept};
ghost use Rattle.run_scripts.specs.run_specs_Making.{setting_of};
ghost use Rattle.run_scripts.specs.Runs.{IsAfterLines, IsBeforeLines, IsNothing, sunk_of, IsScriptPerformed, IsScriptBad, AreLossesFailed, AreEndedAt};

use crate::words::run;
use bank_file::{Device, FileBank};
use run_scripts::{AlertKind, Hook, Pace, Report, Sink, Source};
use std::alloc::Global;
use std::sync::Wait;
use std::thread::Threads;

/// `run` over devices, one for each slot, such as image files. All that `run` says of a bank is said here of them: where they tell their
/// bytes and what was done to them, the tape is made of that, and it begins with what they held when they were opened. It says the same
/// of each kind of device that keeps its word, one in memory or a file: nothing here is done for one of them alone.
pub fn run_over_devices<
    R: Threads + Wait + Sync,
    D: Device + Drop + Send,
    S: Source,
    K: Sink,
    F: Fn(u64, u64) -> u64 + Sync + Drop,
    G: Fn(AlertKind, u32) -> bool + Sync + Drop,
>(
    rt: &R,
    alloc: Global,
    words: &[String],
    script: &mut S,
    out: &mut K,
    bank: FileBank<D>,
    pace: Pace<F>,
    hook: Hook<G>,
) -> Report<FileBank<D>>
    requires slots { IfSome (command_in (map string_bytes words.now)) (λ command. (given_of D.start bank).slots ≡ slots_for command) }
    requires callable { F.IsAlwaysCallable (asked_by pace) }
    requires answers { AnswersSteps (F.post (asked_by pace)) }
    requires wants { G.IsAlwaysCallable (wanted_by hook) }
    requires urgent { WantsUrgent (G.post (wanted_by hook)) }
    ensures status { result.status ≤ 6 }
    ensures bad_words { result.status ≡ 2 → command_in (map string_bytes words.now) ≡ None }
    ensures no_command { command_in (map string_bytes words.now) ≡ None → (result.status ≡ 2) ⊎ ((result.status ≡ 6) × (is_parsed (map string_bytes words.now) ≡ true)) }
    ensures bad_line { result.status ≡ 3 → IsScriptBad (demo_in (map string_bytes words.now)) S.tells (S.left script.old) (S.left script.new) result.bad_line }
    ensures unread { IfSome (demo_in (map string_bytes words.now)) (λ size. script.new ≡ script.old) }
    ensures read_fault { result.status ≡ 4 → HasRisen (S.faults_of script.old) (S.faults_of script.new) }
    ensures write_fault { result.status ≡ 5 → HasRisen (K.faults_of out.old) (K.faults_of out.new) }
    ensures performed { IsAfterLines result.status → IsScriptPerformed (G.post (wanted_by hook)) (demo_in (map string_bytes words.now)) S.tells (S.left script.old) (S.left script.new) (setting_of D.tells (given_of D.start bank) (tape_in D.log bank) (tape_in D.log result.bank) (backup_in (map string_bytes words.now)) (faults_in bank) (faults_in result.bank)) (sunk_of K.tells (K.taken out.old) (K.taken out.new) result.shown) result.status result.epochs.items result.lines.items }
    ensures short { result.status ≡ 6 → IsScriptPerformed (G.post (wanted_by hook)) (demo_in (map string_bytes words.now)) S.tells (S.left script.old) (S.left script.new) (setting_of D.tells (given_of D.start bank) (tape_in D.log bank) (tape_in D.log result.bank) (backup_in (map string_bytes words.now)) (faults_in bank) (faults_in result.bank)) (sunk_of K.tells (K.taken out.old) (K.taken out.new) result.shown) result.status result.epochs.items result.lines.items
        ⊎ (IsNothing (sunk_of K.tells (K.taken out.old) (K.taken out.new) result.shown) result.epochs.items result.lines.items × (result.bank ≡ bank)) }
    ensures nothing { IsBeforeLines result.status → IsNothing (sunk_of K.tells (K.taken out.old) (K.taken out.new) result.shown) result.epochs.items result.lines.items }
    ensures untouched { IsBeforeLines result.status → result.bank ≡ bank }
    ensures legal { D.tells → AreLegal (given_of D.start bank) (tape_in D.log result.bank) (backup_in (map string_bytes words.now)) result.epochs.items }
    ensures right { D.tells → AreRight (given_of D.start bank) (tape_in D.log result.bank) (backup_in (map string_bytes words.now)) result.epochs.items }
    ensures kept { D.tells → AreKept (given_of D.start bank) (tape_in D.log result.bank) (backup_in (map string_bytes words.now)) result.epochs.items }
    ensures ended { D.tells → AreEndedAt (length (tape_in D.log result.bank)) result.epochs.items }
    ensures losses { AreLossesFailed (setting_of D.tells (given_of D.start bank) (tape_in D.log bank) (tape_in D.log result.bank) (backup_in (map string_bytes words.now)) (faults_in bank) (faults_in result.bank)) result.epochs.items }
    ensures ends_well { IsSome (command_in (map string_bytes words.now)) → HasNotFailed (S.faults_of script.old) (S.faults_of script.new) → HasNotFailed (K.faults_of out.old) (K.faults_of out.new)
        → EndsWell (demo_in (map string_bytes words.now)) S.tells (S.left script.old) (S.left script.new) result.status result.epochs.items result.lines.items }
    ensures unfailed { NoneFailed (faults_in bank) (faults_in result.bank) → AreUnfailed result.epochs.items }
    ensures complete { IsComplete (setting_of D.tells (given_of D.start bank) (tape_in D.log bank) (tape_in D.log result.bank) (backup_in (map string_bytes words.now)) (faults_in bank) (faults_in result.bank)) result.epochs.items result.lines.items }
    ensures never_falls { NeverFalls (faults_in bank) (faults_in result.bank) }
    ensures grows { Grows D.tells (tape_in D.log bank) (tape_in D.log result.bank) }
    ensures source_never_falls { S.faults_of script.old ≤ S.faults_of script.new }
    ensures sink_never_falls { K.faults_of out.old ≤ K.faults_of out.new }
    ensures given { given_of D.start result.bank ≡ given_of D.start bank }
{
    run(rt, alloc, words, script, out, bank, pace, hook)
}
