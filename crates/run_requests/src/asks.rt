//! One request of the script to a running array.

ghost use Rattle.std.specs.Prelude.{◌≡◌, ◌≢◌, ◌⊎◌, ◌+◌, ◌*◌, ◌/◌, ◌<◌, ◌≤◌, ◌^◌, ℕ, true, List, length, slice_get, Err, IfOk, IfErr, IsTrue, IsFalse, IsSome};
ghost use Rattle.run_specs.specs.raid_types_the_Fault_TheVariants.{NoMemory as WantsMemory};
ghost use Rattle.run_specs.specs.bank_Given.{NeverFalls};
ghost use Rattle.run_specs.specs.raid_types_Sectors.{IsWhole};
ghost use Rattle.std.specs.List.{list_any};
ghost use Rattle.run_specs.specs.sb_specs_Reads.{has_spare};
ghost use Rattle.run_specs.specs.sb_specs_Reading.{is_reshaping, list_length};
ghost use Rattle.run_specs.specs.array_members_Placed.{AreStillHeld};
ghost use Rattle.run_specs.specs.array_call_specs_Calls.{AreSparesFewer, AreLossesOf, IsEndOf};
ghost use Rattle.run_specs.specs.array_members_Moving.{Grows};
ghost use Rattle.run_specs.specs.reshape_request_Left.{phases_of};
ghost use Rattle.run_specs.specs.array_reply_specs_Going.{IsSameEpoch, HasRunOn};
ghost use Rattle.run_specs.specs.array_reply_specs_Replies.{HasToldBy};
ghost use Rattle.run_specs.specs.Making.{is_added};
ghost use Rattle.run_specs.specs.Asked.{IsAsked, IsSizedBy, IsWaited, script_who};
ghost use Rattle.run_specs.specs.Replies.{leaves_more_at};
ghost use Rattle.run_specs.specs.Caused.{Record, record_of, IsJudgedAt};
ghost use Rattle.run_specs.specs.Records.{AreStepsAnswered, AreAllAnswered, IsLeftAt};
ghost use Rattle.run_specs.specs.Turning.{IsTellable, IsTurningTold};
ghost use Rattle.run_specs.specs.script_the_Line_TheVariants.{Read as ReadLine, Write as WriteLine, Flush as FlushLine, Fail as FailLine, Add as AddLine, ArraySize as ArraySizeLine, Grow as GrowLine, Step as StepLine};

use run_specs::{Bank, Event, Fault, NoMemory, Running, Who, Wish, seed_sectors, steps};
use std::alloc::Global;

// How many steps a wait asks for at a time.
const STEPS_AT_ONCE: u32 = 4_096;

/// The script's next call.
pub fn script_call<B: Bank>(array: &Running<B>) -> Who
    ensures { result ≡ script_who array.now.parts.entries }
{
    let number = array.next_number(0);
    Who { caller: 0, number }
}

/// The place of the last entry.
pub fn last_place<B: Bank>(array: &Running<B>) -> u64
    requires { 1 ≤ length array.now.parts.entries }
    ensures { result + 1 ≡ length array.now.parts.entries }
{
    array.epoch().entries.len() as u64 - 1
}

// Whether a call was answered want of memory.
fn wants_memory<T>(answer: &Result<T, Fault>) -> bool
    ensures yes { IsTrue result → answer.now ≡ Err WantsMemory }
    ensures no { IsFalse result → answer.now ≢ Err WantsMemory }
{
    match answer {
        Err(Fault::NoMemory) => true,
        Err(Fault::Refused(_)) => false,
        Ok(_) => false,
    }
}

/// Reads so many sectors. Ok is the place of the reply entry.
pub fn ask_read<B: Bank>(
    alloc: Global,
    array: &mut Running<B>,
    at: u64,
    count: u32,
) -> Result<u64, NoMemory>
    requires few { count ≤ 128 }
    requires short { at + count < 2 ^ 63 }
    requires turning { IsTurningTold (is_reshaping array.old.parts.members.newest) (phases_of array.old.ahead) array.old.parts.entries }
    ensures asked { IsAsked (list_length array.old.parts.members.newest) (ReadLine at count) array.old.parts.entries array.new.parts.entries result }
    ensures tellable { IfOk result (λ place. IsTellable array.new.parts.entries place) }
    ensures left { IfOk result (λ place. IsLeftAt (B.faults_of array.old.parts.bank) (B.faults_of array.new.parts.bank) (record_of array.old) (record_of array.new) (ReadLine at count) array.new.parts.entries place) }
    ensures turning { IsTurningTold (is_reshaping array.new.parts.members.newest) (phases_of array.new.ahead) array.new.parts.entries }
    ensures ended { IfOk result (λ place. IsEndOf B.tells array.new.parts.first array.new.parts.entries (B.tape array.new.parts.bank)) }
    ensures unchanged { IfErr result (λ none. array.new ≡ array.old) }
    ensures grows { Grows B.tells (B.tape array.old.parts.bank) (B.tape array.new.parts.bank) }
    ensures held { AreStillHeld array.old.parts.members array.new.parts.members }
    ensures spares { AreSparesFewer array.old.parts.members array.new.parts.members }
    ensures losses { AreLossesOf array.old.parts.members (B.faults_of array.old.parts.bank) (B.faults_of array.new.parts.bank) array.old.parts.entries array.new.parts.entries }
    ensures never_falls { NeverFalls (B.faults_of array.old.parts.bank) (B.faults_of array.new.parts.bank) }
    ensures given { B.given array.new.parts.bank ≡ B.given array.old.parts.bank }
    ensures same { IsSameEpoch array.old array.new }
    ensures sized { IsSizedBy (list_length array.old.parts.members.newest) (list_length array.new.parts.members.newest) array.old.parts.entries array.new.parts.entries }
    ensures told { HasToldBy array.old.parts.backup (B.faults_of array.old.parts.bank) (B.faults_of array.new.parts.bank) array.old.parts.entries array.new.parts.entries }
{
    let mut into = match vec![in alloc; 0u8; count as usize * 512] {
        Ok(into) => into,
        Err(_) => return Err(NoMemory {}),
    };
    let who = script_call(array);
    let answer = run_specs::read(array, who, at, into.as_mut_slice());
    if wants_memory(&answer) {
        return Err(NoMemory {});
    }
    Ok(last_place(array))
}

/// Writes what a seed gives so many sectors. Ok is the place of the reply entry.
pub fn ask_write<B: Bank>(
    alloc: Global,
    array: &mut Running<B>,
    at: u64,
    count: u32,
    seed: u32,
) -> Result<u64, NoMemory>
    requires some { 1 ≤ count }
    requires few { count ≤ 128 }
    requires short { at + count < 2 ^ 63 }
    requires turning { IsTurningTold (is_reshaping array.old.parts.members.newest) (phases_of array.old.ahead) array.old.parts.entries }
    ensures asked { IsAsked (list_length array.old.parts.members.newest) (WriteLine at count seed) array.old.parts.entries array.new.parts.entries result }
    ensures tellable { IfOk result (λ place. IsTellable array.new.parts.entries place) }
    ensures left { IfOk result (λ place. IsLeftAt (B.faults_of array.old.parts.bank) (B.faults_of array.new.parts.bank) (record_of array.old) (record_of array.new) (WriteLine at count seed) array.new.parts.entries place) }
    ensures turning { IsTurningTold (is_reshaping array.new.parts.members.newest) (phases_of array.new.ahead) array.new.parts.entries }
    ensures ended { IfOk result (λ place. IsEndOf B.tells array.new.parts.first array.new.parts.entries (B.tape array.new.parts.bank)) }
    ensures unchanged { IfErr result (λ none. array.new ≡ array.old) }
    ensures grows { Grows B.tells (B.tape array.old.parts.bank) (B.tape array.new.parts.bank) }
    ensures held { AreStillHeld array.old.parts.members array.new.parts.members }
    ensures spares { AreSparesFewer array.old.parts.members array.new.parts.members }
    ensures losses { AreLossesOf array.old.parts.members (B.faults_of array.old.parts.bank) (B.faults_of array.new.parts.bank) array.old.parts.entries array.new.parts.entries }
    ensures never_falls { NeverFalls (B.faults_of array.old.parts.bank) (B.faults_of array.new.parts.bank) }
    ensures given { B.given array.new.parts.bank ≡ B.given array.old.parts.bank }
    ensures same { IsSameEpoch array.old array.new }
    ensures sized { IsSizedBy (list_length array.old.parts.members.newest) (list_length array.new.parts.members.newest) array.old.parts.entries array.new.parts.entries }
    ensures told { HasToldBy array.old.parts.backup (B.faults_of array.old.parts.bank) (B.faults_of array.new.parts.bank) array.old.parts.entries array.new.parts.entries }
{
    let body = match seed_sectors(alloc, at, count, seed) {
        Ok(body) => body,
        Err(_) => return Err(NoMemory {}),
    };
    // (the history and the array say the same of what can be read and written)
    let _ = array.visible();
    let who = script_call(array);
    let answer = run_specs::write(array, who, at, body.as_bytes());
    if wants_memory(&answer) {
        return Err(NoMemory {});
    }
    Ok(last_place(array))
}

/// Makes what was written durable. Ok is the place of the reply entry.
pub fn ask_flush<B: Bank>(array: &mut Running<B>) -> Result<u64, NoMemory>
    requires turning { IsTurningTold (is_reshaping array.old.parts.members.newest) (phases_of array.old.ahead) array.old.parts.entries }
    ensures asked { IsAsked (list_length array.old.parts.members.newest) FlushLine array.old.parts.entries array.new.parts.entries result }
    ensures tellable { IfOk result (λ place. IsTellable array.new.parts.entries place) }
    ensures left { IfOk result (λ place. IsLeftAt (B.faults_of array.old.parts.bank) (B.faults_of array.new.parts.bank) (record_of array.old) (record_of array.new) FlushLine array.new.parts.entries place) }
    ensures turning { IsTurningTold (is_reshaping array.new.parts.members.newest) (phases_of array.new.ahead) array.new.parts.entries }
    ensures ended { IfOk result (λ place. IsEndOf B.tells array.new.parts.first array.new.parts.entries (B.tape array.new.parts.bank)) }
    ensures unchanged { IfErr result (λ none. array.new ≡ array.old) }
    ensures grows { Grows B.tells (B.tape array.old.parts.bank) (B.tape array.new.parts.bank) }
    ensures held { AreStillHeld array.old.parts.members array.new.parts.members }
    ensures spares { AreSparesFewer array.old.parts.members array.new.parts.members }
    ensures losses { AreLossesOf array.old.parts.members (B.faults_of array.old.parts.bank) (B.faults_of array.new.parts.bank) array.old.parts.entries array.new.parts.entries }
    ensures never_falls { NeverFalls (B.faults_of array.old.parts.bank) (B.faults_of array.new.parts.bank) }
    ensures given { B.given array.new.parts.bank ≡ B.given array.old.parts.bank }
    ensures same { IsSameEpoch array.old array.new }
    ensures sized { IsSizedBy (list_length array.old.parts.members.newest) (list_length array.new.parts.members.newest) array.old.parts.entries array.new.parts.entries }
    ensures told { HasToldBy array.old.parts.backup (B.faults_of array.old.parts.bank) (B.faults_of array.new.parts.bank) array.old.parts.entries array.new.parts.entries }
{
    let who = script_call(array);
    let answer = run_specs::flush(array, who);
    if wants_memory(&answer) {
        return Err(NoMemory {});
    }
    Ok(last_place(array))
}

/// Fails a role. Ok is the place of the reply entry.
pub fn ask_fail<B: Bank>(array: &mut Running<B>, role: u32) -> Result<u64, NoMemory>
    requires turning { IsTurningTold (is_reshaping array.old.parts.members.newest) (phases_of array.old.ahead) array.old.parts.entries }
    ensures asked { IsAsked (list_length array.old.parts.members.newest) (FailLine role) array.old.parts.entries array.new.parts.entries result }
    ensures tellable { IfOk result (λ place. IsTellable array.new.parts.entries place) }
    ensures judged { IfOk result (λ place. IsJudgedAt (B.given array.old.parts.bank) (record_of array.old) (FailLine role) array.new.parts.entries place) }
    ensures left { IfOk result (λ place. IsLeftAt (B.faults_of array.old.parts.bank) (B.faults_of array.new.parts.bank) (record_of array.old) (record_of array.new) (FailLine role) array.new.parts.entries place) }
    ensures turning { IsTurningTold (is_reshaping array.new.parts.members.newest) (phases_of array.new.ahead) array.new.parts.entries }
    ensures ended { IfOk result (λ place. IsEndOf B.tells array.new.parts.first array.new.parts.entries (B.tape array.new.parts.bank)) }
    ensures unchanged { IfErr result (λ none. array.new ≡ array.old) }
    ensures grows { Grows B.tells (B.tape array.old.parts.bank) (B.tape array.new.parts.bank) }
    ensures held { AreStillHeld array.old.parts.members array.new.parts.members }
    ensures spares { AreSparesFewer array.old.parts.members array.new.parts.members }
    ensures losses { AreLossesOf array.old.parts.members (B.faults_of array.old.parts.bank) (B.faults_of array.new.parts.bank) array.old.parts.entries array.new.parts.entries }
    ensures never_falls { NeverFalls (B.faults_of array.old.parts.bank) (B.faults_of array.new.parts.bank) }
    ensures given { B.given array.new.parts.bank ≡ B.given array.old.parts.bank }
    ensures same { IsSameEpoch array.old array.new }
    ensures sized { IsSizedBy (list_length array.old.parts.members.newest) (list_length array.new.parts.members.newest) array.old.parts.entries array.new.parts.entries }
    ensures told { HasToldBy array.old.parts.backup (B.faults_of array.old.parts.bank) (B.faults_of array.new.parts.bank) array.old.parts.entries array.new.parts.entries }
{
    let who = script_call(array);
    let answer = run_specs::fail(array, who, role);
    if wants_memory(&answer) {
        return Err(NoMemory {});
    }
    Ok(last_place(array))
}

/// Makes a slot a spare. Ok is the place of the reply entry.
pub fn ask_add<B: Bank>(array: &mut Running<B>, slot: u32) -> Result<u64, NoMemory>
    requires turning { IsTurningTold (is_reshaping array.old.parts.members.newest) (phases_of array.old.ahead) array.old.parts.entries }
    ensures asked { IsAsked (list_length array.old.parts.members.newest) (AddLine slot) array.old.parts.entries array.new.parts.entries result }
    ensures tellable { IfOk result (λ place. IsTellable array.new.parts.entries place) }
    ensures judged { IfOk result (λ place. IsJudgedAt (B.given array.old.parts.bank) (record_of array.old) (AddLine slot) array.new.parts.entries place) }
    ensures left { IfOk result (λ place. IsLeftAt (B.faults_of array.old.parts.bank) (B.faults_of array.new.parts.bank) (record_of array.old) (record_of array.new) (AddLine slot) array.new.parts.entries place) }
    ensures turning { IsTurningTold (is_reshaping array.new.parts.members.newest) (phases_of array.new.ahead) array.new.parts.entries }
    ensures ended { IfOk result (λ place. IsEndOf B.tells array.new.parts.first array.new.parts.entries (B.tape array.new.parts.bank)) }
    ensures unchanged { IfErr result (λ none. array.new ≡ array.old) }
    ensures grows { Grows B.tells (B.tape array.old.parts.bank) (B.tape array.new.parts.bank) }
    ensures held { AreStillHeld array.old.parts.members array.new.parts.members }
    ensures spares { (s : ℕ) → has_spare array.new.parts.members.spares s ≡ true → (has_spare array.old.parts.members.spares s ≡ true) ⊎ IsTrue (list_any (λ e. is_added s e.event) array.new.parts.entries) }
    ensures losses { AreLossesOf array.old.parts.members (B.faults_of array.old.parts.bank) (B.faults_of array.new.parts.bank) array.old.parts.entries array.new.parts.entries }
    ensures never_falls { NeverFalls (B.faults_of array.old.parts.bank) (B.faults_of array.new.parts.bank) }
    ensures given { B.given array.new.parts.bank ≡ B.given array.old.parts.bank }
    ensures same { IsSameEpoch array.old array.new }
    ensures sized { IsSizedBy (list_length array.old.parts.members.newest) (list_length array.new.parts.members.newest) array.old.parts.entries array.new.parts.entries }
    ensures told { HasToldBy array.old.parts.backup (B.faults_of array.old.parts.bank) (B.faults_of array.new.parts.bank) array.old.parts.entries array.new.parts.entries }
{
    let who = script_call(array);
    let answer = run_specs::add(array, who, slot);
    if wants_memory(&answer) {
        return Err(NoMemory {});
    }
    Ok(last_place(array))
}

/// Limits what can be read and written of the list, or takes the limit away. Ok is the place of the reply entry. It makes no device call.
pub fn ask_visible<B: Bank>(array: &mut Running<B>, limit: Option<u64>) -> Result<u64, NoMemory>
    requires turning { IsTurningTold (is_reshaping array.old.parts.members.newest) (phases_of array.old.ahead) array.old.parts.entries }
    ensures asked { IsAsked (list_length array.old.parts.members.newest) (ArraySizeLine limit) array.old.parts.entries array.new.parts.entries result }
    ensures tellable { IfOk result (λ place. IsTellable array.new.parts.entries place) }
    ensures judged { IfOk result (λ place. IsJudgedAt (B.given array.old.parts.bank) (record_of array.old) (ArraySizeLine limit) array.new.parts.entries place) }
    ensures left { IfOk result (λ place. IsLeftAt (B.faults_of array.old.parts.bank) (B.faults_of array.new.parts.bank) (record_of array.old) (record_of array.new) (ArraySizeLine limit) array.new.parts.entries place) }
    ensures turning { IsTurningTold (is_reshaping array.new.parts.members.newest) (phases_of array.new.ahead) array.new.parts.entries }
    ensures ended { IfOk result (λ place. IsEndOf B.tells array.new.parts.first array.new.parts.entries (B.tape array.new.parts.bank)) }
    ensures unchanged { IfErr result (λ none. array.new ≡ array.old) }
    ensures went { HasRunOn B.tells B.given B.tape B.faults_of array.old array.new }
{
    let who = script_call(array);
    let answer = run_specs::set_visible(array, who, limit);
    if wants_memory(&answer) {
        return Err(NoMemory {});
    }
    Ok(last_place(array))
}

/// Plans a grow. Ok is the place of the reply entry. It makes no device call.
pub fn ask_grow<B: Bank>(array: &mut Running<B>, wish: Wish) -> Result<u64, NoMemory>
    requires turning { IsTurningTold (is_reshaping array.old.parts.members.newest) (phases_of array.old.ahead) array.old.parts.entries }
    ensures asked { IsAsked (list_length array.old.parts.members.newest) (GrowLine wish) array.old.parts.entries array.new.parts.entries result }
    ensures tellable { IfOk result (λ place. IsTellable array.new.parts.entries place) }
    ensures judged { IfOk result (λ place. IsJudgedAt (B.given array.old.parts.bank) (record_of array.old) (GrowLine wish) array.new.parts.entries place) }
    ensures left { IfOk result (λ place. IsLeftAt (B.faults_of array.old.parts.bank) (B.faults_of array.new.parts.bank) (record_of array.old) (record_of array.new) (GrowLine wish) array.new.parts.entries place) }
    ensures turning { IsTurningTold (is_reshaping array.new.parts.members.newest) (phases_of array.new.ahead) array.new.parts.entries }
    ensures ended { IfOk result (λ place. IsEndOf B.tells array.new.parts.first array.new.parts.entries (B.tape array.new.parts.bank)) }
    ensures unchanged { IfErr result (λ none. array.new ≡ array.old) }
    ensures went { HasRunOn B.tells B.given B.tape B.faults_of array.old array.new }
{
    // (the history and the array say the same of what can be read and written)
    let _ = array.visible();
    let who = script_call(array);
    let answer = run_specs::plan_grow(array, who, wish);
    if wants_memory(&answer) {
        return Err(NoMemory {});
    }
    Ok(last_place(array))
}

/// Asks for at most so many steps. Ok is the place of the reply entry.
pub fn ask_steps<B: Bank>(array: &mut Running<B>, most: u32) -> Result<u64, NoMemory>
    requires some { 1 ≤ most }
    requires turning { IsTurningTold (is_reshaping array.old.parts.members.newest) (phases_of array.old.ahead) array.old.parts.entries }
    ensures asked { IsAsked (list_length array.old.parts.members.newest) (StepLine most) array.old.parts.entries array.new.parts.entries result }
    ensures tellable { IfOk result (λ place. IsTellable array.new.parts.entries place) }
    ensures judged { IfOk result (λ place. IsJudgedAt (B.given array.old.parts.bank) (record_of array.old) (StepLine most) array.new.parts.entries place) }
    ensures stepped { IfOk result (λ place. AreStepsAnswered (B.faults_of array.old.parts.bank) (B.faults_of array.new.parts.bank) (record_of array.old) (record_of array.new)) }
    ensures turning { IsTurningTold (is_reshaping array.new.parts.members.newest) (phases_of array.new.ahead) array.new.parts.entries }
    ensures more { IfOk result (λ place. length array.old.parts.entries < length array.new.parts.entries) }
    ensures ended { IfOk result (λ place. IsEndOf B.tells array.new.parts.first array.new.parts.entries (B.tape array.new.parts.bank)) }
    ensures unchanged { IfErr result (λ none. array.new ≡ array.old) }
    ensures went { HasRunOn B.tells B.given B.tape B.faults_of array.old array.new }
{
    let who = script_call(array);
    let _event = match steps(array, who, u64::from(most)) {
        Ok(event) => event,
        Err(none) => return Err(none),
    };
    Ok(last_place(array))
}

// Whether the reply at this place leaves steps to do, of which none was refused.
fn leaves_more<B: Bank>(array: &Running<B>, at: u64) -> bool
    requires there { IsSome (slice_get array.now.parts.entries at) }
    ensures { result ≡ leaves_more_at array.now.parts.entries at }
{
    match &array.epoch().entries.get(at as usize).event {
        Event::Stepped {
            left,
            ended: None,
            ..
        } => *left > 0,
        _ => false,
    }
}

/// Asks for steps again and again, until none is left or one is refused. Ok is the place of the last reply entry.
pub fn ask_wait<B: Bank>(array: &mut Running<B>) -> Result<u64, NoMemory>
    requires ended { IsEndOf B.tells array.old.parts.first array.old.parts.entries (B.tape array.old.parts.bank) }
    requires turning { IsTurningTold (is_reshaping array.old.parts.members.newest) (phases_of array.old.ahead) array.old.parts.entries }
    ensures asked { IsWaited (list_length array.old.parts.members.newest) array.old.parts.entries array.new.parts.entries result }
    ensures tellable { IfOk result (λ place. IsTellable array.new.parts.entries place) }
    ensures stepped { IfOk result (λ place. (others : List Record) × AreAllAnswered (B.faults_of array.old.parts.bank) (B.faults_of array.new.parts.bank) (record_of array.old) others (record_of array.new)) }
    ensures turning { IsTurningTold (is_reshaping array.new.parts.members.newest) (phases_of array.new.ahead) array.new.parts.entries }
    ensures ended { IsEndOf B.tells array.new.parts.first array.new.parts.entries (B.tape array.new.parts.bank) }
    ensures went { HasRunOn B.tells B.given B.tape B.faults_of array.old array.new }
{
    loop {
        let at = match ask_steps(array, STEPS_AT_ONCE) {
            Ok(at) => at,
            Err(none) => return Err(none),
        };
        if !leaves_more(array, at) {
            return Ok(at);
        }
    }
}
