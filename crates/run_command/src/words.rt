//! A whole run, from the words of the command.

ghost use Rattle.std.specs.Prelude.{◌≡◌, ◌⊎◌, ◌<◌, ◌≤◌, ◌+◌, ◌-◌, true, length, map, string_bytes, Option, Some, None, Ok, IfSome, IsSome};
ghost use Rattle.run_scripts.specs.bank_Given.{NeverFalls};
ghost use Rattle.run_scripts.specs.array_members_Moving.{Grows};
ghost use Rattle.run_scripts.specs.script_io_Causes.{HasRisen};
ghost use Rattle.run_scripts.specs.script_demo_Demo.{IsDemoSize};
ghost use Rattle.script_argv.specs.Words.{asked_by as asked_of, command_in, is_parsed, slots_for, backup_in, demo_for, demo_in};
ghost use Rattle.run_scripts.specs.history_monitor_Hooks.{wanted_by};
ghost use Rattle.run_scripts.specs.history_monitor_Urgent.{WantsUrgent};
ghost use Rattle.run_scripts.specs.lane_shared_Pace.{AnswersSteps, asked_by};
ghost use Rattle.run_scripts.specs.run_specs_Ended.{AreLegal, AreRight};
ghost use Rattle.run_scripts.specs.Complete.{HasNotFailed, IsComplete, EndsWell};
ghost use Rattle.run_scripts.specs.Done.{NoneFailed, AreUnfailed};
ghost use Rattle.run_scripts.specs.Kept.{AreKept};
ghost use Rattle.run_scripts.specs.run_specs_Making.{setting_of};
ghost use Rattle.run_scripts.specs.Runs.{IsAfterLines, IsBeforeLines, IsNothing, sunk_of, IsScriptPerformed, IsScriptBad, AreLossesFailed, AreEndedAt};
ghost use Rattle.run_scripts.specs.run_specs_States.{IsFitBank};

use run_scripts::{AlertKind, Bank, Hook, Pace, Report, Sink, Source, nothing_done, run_script};
use script_argv::{Command, command_of};
use std::alloc::Global;
use std::sync::Wait;
use std::thread::Threads;

const BAD_WORDS: u8 = 2;

const NO_MEMORY: u8 = 6;

// The backup slot of a command's bank, the last one, where it has one.
fn backup_of<B: Bank>(words: &[String], command: &Command, bank: &B) -> Option<u32>
    requires asked { command_in (map string_bytes words.now) ≡ Some (asked_of command.now) }
    requires slots { (B.given bank.now).slots ≡ slots_for (asked_of command.now) }
    ensures backup { result ≡ backup_in (map string_bytes words.now) }
    ensures fits { IsFitBank (B.given bank.now) result }
{
    let _ = words;
    match command {
        Command::Memory | Command::Demo(_) => Some(bank.slots() - 1),
        Command::Run(paths) => {
            if paths.has_backup {
                Some(bank.slots() - 1)
            } else {
                None
            }
        }
    }
}

// The size of the demo that a command performs, where it is one.
fn demo_of(words: &[String], command: &Command) -> Option<u64>
    requires asked { command_in (map string_bytes words.now) ≡ Some (asked_of command.now) }
    requires few { IfSome (demo_for (asked_of command.now)) IsDemoSize }
    ensures demo { result ≡ demo_in (map string_bytes words.now) }
    ensures few { IfSome result IsDemoSize }
{
    let _ = words;
    match command {
        Command::Demo(size) => Some(*size),
        _ => None,
    }
}

/// Reads the words, then the whole script, and then performs its lines, one after another, on the arrays that they make and
/// find on the bank. Each reply is one piece for the sink, which is pushed before the next line. An array that still runs at the
/// end is halted. The words are those of the command after the program's name; `memory` wants a bank of eight slots, the
/// last of which is the backup, and `run` one with a slot for each of its images and for its backup, which is the last. The lines of a
/// block are performed at once, in threads, beside a worker that asks for steps as many at a time as the pace answers: `run` may wait. The
/// alerts that `alerts` lines tell are those that the hook wants, and each failure and each degraded array, whatever it wants of the rest.
pub fn run<
    R: Threads + Wait + Sync,
    B: Bank + Drop + Send,
    S: Source,
    K: Sink,
    F: Fn(u64, u64) -> u64 + Sync + Drop,
    G: Fn(AlertKind, u32) -> bool + Sync + Drop,
>(
    rt: &R,
    alloc: Global,
    words: &[String],
    script: &mut S,
    out: &mut K,
    bank: B,
    pace: Pace<F>,
    hook: Hook<G>,
) -> Report<B>
    requires slots { IfSome (command_in (map string_bytes words.now)) (λ command. (B.given bank).slots ≡ slots_for command) }
    requires callable { F.IsAlwaysCallable (asked_by pace) }
    requires answers { AnswersSteps (F.post (asked_by pace)) }
    requires wants { G.IsAlwaysCallable (wanted_by hook) }
    requires urgent { WantsUrgent (G.post (wanted_by hook)) }
    ensures status { result.status ≤ 6 }
    ensures bad_words { result.status ≡ 2 → command_in (map string_bytes words.now) ≡ None }
    ensures no_command { command_in (map string_bytes words.now) ≡ None → (result.status ≡ 2) ⊎ ((result.status ≡ 6) × (is_parsed (map string_bytes words.now) ≡ true)) }
    ensures bad_line { result.status ≡ 3 → IsScriptBad (demo_in (map string_bytes words.now)) S.tells (S.left script.old) (S.left script.new) result.bad_line }
    ensures unread { IfSome (demo_in (map string_bytes words.now)) (λ size. script.new ≡ script.old) }
    ensures read_fault { result.status ≡ 4 → HasRisen (S.faults_of script.old) (S.faults_of script.new) }
    ensures write_fault { result.status ≡ 5 → HasRisen (K.faults_of out.old) (K.faults_of out.new) }
    ensures performed { IsAfterLines result.status → IsScriptPerformed (G.post (wanted_by hook)) (demo_in (map string_bytes words.now)) S.tells (S.left script.old) (S.left script.new) (setting_of B.tells (B.given bank) (B.tape bank) (B.tape result.bank) (backup_in (map string_bytes words.now)) (B.faults_of bank) (B.faults_of result.bank)) (sunk_of K.tells (K.taken out.old) (K.taken out.new) result.shown) result.status result.epochs.items result.lines.items }
    ensures short { result.status ≡ 6 → IsScriptPerformed (G.post (wanted_by hook)) (demo_in (map string_bytes words.now)) S.tells (S.left script.old) (S.left script.new) (setting_of B.tells (B.given bank) (B.tape bank) (B.tape result.bank) (backup_in (map string_bytes words.now)) (B.faults_of bank) (B.faults_of result.bank)) (sunk_of K.tells (K.taken out.old) (K.taken out.new) result.shown) result.status result.epochs.items result.lines.items
        ⊎ (IsNothing (sunk_of K.tells (K.taken out.old) (K.taken out.new) result.shown) result.epochs.items result.lines.items × (result.bank ≡ bank)) }
    ensures nothing { IsBeforeLines result.status → IsNothing (sunk_of K.tells (K.taken out.old) (K.taken out.new) result.shown) result.epochs.items result.lines.items }
    ensures untouched { IsBeforeLines result.status → result.bank ≡ bank }
    ensures legal { B.tells → AreLegal (B.given bank) (B.tape result.bank) (backup_in (map string_bytes words.now)) result.epochs.items }
    ensures right { B.tells → AreRight (B.given bank) (B.tape result.bank) (backup_in (map string_bytes words.now)) result.epochs.items }
    ensures kept { B.tells → AreKept (B.given bank) (B.tape result.bank) (backup_in (map string_bytes words.now)) result.epochs.items }
    ensures ended { B.tells → AreEndedAt (length (B.tape result.bank)) result.epochs.items }
    ensures losses { AreLossesFailed (setting_of B.tells (B.given bank) (B.tape bank) (B.tape result.bank) (backup_in (map string_bytes words.now)) (B.faults_of bank) (B.faults_of result.bank)) result.epochs.items }
    ensures ends_well { IsSome (command_in (map string_bytes words.now)) → HasNotFailed (S.faults_of script.old) (S.faults_of script.new) → HasNotFailed (K.faults_of out.old) (K.faults_of out.new)
        → EndsWell (demo_in (map string_bytes words.now)) S.tells (S.left script.old) (S.left script.new) result.status result.epochs.items result.lines.items }
    ensures unfailed { NoneFailed (B.faults_of bank) (B.faults_of result.bank) → AreUnfailed result.epochs.items }
    ensures complete { IsComplete (setting_of B.tells (B.given bank) (B.tape bank) (B.tape result.bank) (backup_in (map string_bytes words.now)) (B.faults_of bank) (B.faults_of result.bank)) result.epochs.items result.lines.items }
    ensures never_falls { NeverFalls (B.faults_of bank) (B.faults_of result.bank) }
    ensures grows { Grows B.tells (B.tape bank) (B.tape result.bank) }
    ensures source_never_falls { S.faults_of script.old ≤ S.faults_of script.new }
    ensures sink_never_falls { K.faults_of out.old ≤ K.faults_of out.new }
    ensures given { B.given result.bank ≡ B.given bank }
{
    let command = match command_of(alloc, words) {
        Ok(command) => command,
        Err(_) => return nothing_done(alloc, bank, NO_MEMORY, 0),
    };
    let Some(command) = command else {
        return nothing_done(alloc, bank, BAD_WORDS, 0);
    };
    let backup = backup_of(words, &command, &bank);
    let demo = demo_of(words, &command);
    run_script(rt, alloc, demo, script, out, bank, backup, &pace, &hook)
}
