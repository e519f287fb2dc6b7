//! The laws of replies.

ghost use Rattle.run_specs.specs.Plain.{PlainRepliesFit, RestTellsPlainly, PlainListsStay};
ghost use Rattle.run_specs.specs.Ruled.{NewRolesFail, UnusedSlotsAreFree, PlansAreStepped, PlansArrive, BlocksLeadOn, ToldStepsAreLeft, SparesStay, FreeSlotsStay, StatusesAreStored, RecordsAreStored, GoneRolesEndSteps, HealthyRolesStay, LanesCallInBlocks, UnaskedLanesAreSilent};

/// Where neither a limit was told nor a reshape planned, begun or ended in its call before it, a reply that tells no failed backup, and
/// no refusal of a reshape, fits its request as one of an array of one shape, unless that asks for a limit or a reshape.
pub fn plain_replies_fit()
    ensures { PlainRepliesFit }
{}

/// Where by the entries before it no reshape may be active, or ahead, a reply that tells no more than they allow tells nothing of a
/// reshape.
pub fn rest_records_plainly()
    ensures { RestTellsPlainly }
{}

/// Where the entries of a history tell nothing of a reshape, the list stays as long as it is.
pub fn plain_lists_stay()
    ensures { PlainListsStay }
{}

/// By its record, a role of an array that was just made can be failed: `NoSuchRole` is ruled out.
pub fn new_roles_fail()
    ensures { NewRolesFail }
{}

/// A slot that an array which was just made doesn't use, and that isn't its backup, isn't taken.
pub fn unused_slots_are_free()
    ensures { UnusedSlotsAreFree }
{}

/// A step behind a plan with steps isn't refused as having nothing to do.
pub fn plans_are_stepped()
    ensures { PlansAreStepped }
{}

/// Where a wait behind a plan leaves no step, the array has the shape that was wished for.
pub fn plans_arrive()
    ensures { PlansArrive }
{}

/// Behind a block that tells no plan a wait that leaves no step leaves the shape that the array went to before it.
pub fn blocks_lead_on()
    ensures { BlocksLeadOn }
{}

/// Where the history tells that steps are left, a step isn't refused as having nothing to do.
pub fn recorded_steps_are_left()
    ensures { ToldStepsAreLeft }
{}

/// A line that uses no member leaves each spare a spare.
pub fn spares_stay()
    ensures { SparesStay }
{}

/// A slot that isn't taken before a block, and that the block doesn't tell added, isn't taken behind it.
pub fn free_slots_stay()
    ensures { FreeSlotsStay }
{}

/// A status of an array whose members are those that are stored tells what is stored.
pub fn statuses_are_stored()
    ensures { StatusesAreStored }
{}

/// In a legal history no lane and no worker has called between the replies to two lines of the script, one of which follows the other.
pub fn lanes_call_in_blocks()
    ensures { LanesCallInBlocks }
{}

/// Before the first block no entry is a lane's or the worker's, whatever the bank tells.
pub fn unasked_lanes_are_silent()
    ensures { UnaskedLanesAreSilent }
{}

/// Where by its history one role of an array isn't gone, the stored superblocks say what its record does.
pub fn records_are_stored()
    ensures { RecordsAreStored }
{}

/// Steps end for a role that is missing only where by the history it is gone.
pub fn missing_roles_end_steps()
    ensures { GoneRolesEndSteps }
{}

/// By a fail no role is told lost by a fault whose slot hasn't failed.
pub fn healthy_roles_stay()
    ensures { HealthyRolesStay }
{}
