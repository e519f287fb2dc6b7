//! Laws of elected members, and of what a stored reshape is refused for. Each function's contract is the law.

ghost use Rattle.array_found_laws.specs.Laws.{ElectedArePlaced, ElectedDoWithout, ElectedReshapesFit, ElectedAreRead, StoredAreHeld, StoredNumbersAreKept};
ghost use Rattle.array_found_laws.specs.Causes.{OffUnitIsTold, AcceptedIsOnUnit, LackingBackupIsTold, LackingBackupIsRefused, BackupsHaveNoSuperblock, LostBackupIsRefused};

/// Each role that a slot holds has its place there, and each spare has room for one.
pub fn elected_members_are_placed()
    ensures { ElectedArePlaced }
{}

/// No more roles are missing than each shape in force tolerates.
pub fn elected_members_do_without()
    ensures { ElectedDoWithout }
{}

/// The shapes of an active reshape fit the size, and its position stands on their unit.
pub fn elected_reshapes_fit()
    ensures { ElectedReshapesFit }
{}

/// What the slots hold is read as the members say.
pub fn elected_members_are_read()
    ensures { ElectedAreRead }
{}

/// Once the slots are flushed their superblocks are held, from where an update may start.
pub fn stored_superblocks_are_held()
    ensures held { StoredAreHeld }
    ensures numbers { StoredNumbersAreKept }
{}

/// `PositionNotOnUnit` tells a position that is neither a multiple of the unit nor the list's length.
pub fn off_unit_is_recorded()
    ensures told { OffUnitIsTold }
    ensures none { AcceptedIsOnUnit }
{}

/// `BackupAbsent` tells that a reshape has no backup with room for a window.
pub fn a_missing_backup_is_recorded()
    ensures told { LackingBackupIsTold }
    ensures refused { LackingBackupIsRefused }
{}

/// Where the backup fails behind superblocks that are refused for nothing, that is what is told.
pub fn a_lost_backup_is_refused()
    ensures same { BackupsHaveNoSuperblock }
    ensures refused { LostBackupIsRefused }
{}
