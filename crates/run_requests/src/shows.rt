//! What a running array is asked of itself.

ghost use Rattle.std.specs.Prelude.{◌≡◌, ◌+◌, ◌≤◌, length, IfOk, IfErr};
ghost use Rattle.run_specs.specs.bank_Given.{NeverFalls};
ghost use Rattle.run_specs.specs.sb_specs_Reading.{is_reshaping, list_length};
ghost use Rattle.run_specs.specs.array_members_Placed.{AreStillHeld};
ghost use Rattle.run_specs.specs.array_members_Moving.{Grows};
ghost use Rattle.run_specs.specs.reshape_request_Left.{phases_of};
ghost use Rattle.run_specs.specs.array_call_specs_Calls.{AreSparesFewer, AreLossesOf, IsEndOf};
ghost use Rattle.run_specs.specs.array_reply_specs_Going.{IsSameEpoch};
ghost use Rattle.run_specs.specs.array_reply_specs_Replies.{HasToldBy};
ghost use Rattle.run_specs.specs.Asked.{IsAsked, IsSizedBy};
ghost use Rattle.run_specs.specs.Caused.{record_of};
ghost use Rattle.run_specs.specs.Records.{IsUntouched};
ghost use Rattle.run_specs.specs.Showing.{IsToldAt};
ghost use Rattle.run_specs.specs.Turning.{IsTellable, IsTurningTold};
ghost use Rattle.run_specs.specs.script_the_Line_TheVariants.{Detail as DetailLine, Mdstat as MdstatLine};

use crate::asks::{last_place, script_call};
use run_specs::{Bank, NoMemory, Running};

/// Asks what the array tells of itself. Ok is the place of the reply entry. It makes no device call.
pub fn ask_show<B: Bank>(array: &mut Running<B>) -> Result<u64, NoMemory>
    requires turning { IsTurningTold (is_reshaping array.old.parts.members.newest) (phases_of array.old.ahead) array.old.parts.entries }
    ensures asked { IsAsked (list_length array.old.parts.members.newest) DetailLine array.old.parts.entries array.new.parts.entries result }
    ensures tellable { IfOk result (λ place. IsTellable array.new.parts.entries place) }
    ensures turning { IsTurningTold (is_reshaping array.new.parts.members.newest) (phases_of array.new.ahead) array.new.parts.entries }
    ensures asked_brief { IsAsked (list_length array.old.parts.members.newest) MdstatLine array.old.parts.entries array.new.parts.entries result }
    ensures shown { IfOk result (λ place. IsToldAt array.old array.new.parts.entries place) }
    ensures left { IfOk result (λ place. IsUntouched (record_of array.old) (record_of array.new)) }
    ensures ended { IfOk result (λ place. IsEndOf B.tells array.new.parts.first array.new.parts.entries (B.tape array.new.parts.bank)) }
    ensures unchanged { IfErr result (λ none. array.new ≡ array.old) }
    ensures grows { Grows B.tells (B.tape array.old.parts.bank) (B.tape array.new.parts.bank) }
    ensures held { AreStillHeld array.old.parts.members array.new.parts.members }
    ensures spares { AreSparesFewer array.old.parts.members array.new.parts.members }
    ensures losses { AreLossesOf array.old.parts.members (B.faults_of array.old.parts.bank) (B.faults_of array.new.parts.bank) array.old.parts.entries array.new.parts.entries }
    ensures never_falls { NeverFalls (B.faults_of array.old.parts.bank) (B.faults_of array.new.parts.bank) }
    ensures given { B.given array.new.parts.bank ≡ B.given array.old.parts.bank }
    ensures same { IsSameEpoch array.old array.new }
    ensures sized { IsSizedBy (list_length array.old.parts.members.newest) (list_length array.new.parts.members.newest) array.old.parts.entries array.new.parts.entries }
    ensures told { HasToldBy array.old.parts.backup (B.faults_of array.old.parts.bank) (B.faults_of array.new.parts.bank) array.old.parts.entries array.new.parts.entries }
{
    // (the history and the array say the same of what can be read and written)
    let _ = array.visible();
    let who = script_call(array);
    let _status = match run_specs::status(array, who) {
        Ok(status) => status,
        Err(none) => return Err(none),
    };
    Ok(last_place(array))
}
