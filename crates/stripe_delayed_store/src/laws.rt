//! Laws of rows that are written behind what they were kept for. Each function's contract is the law.

ghost use Rattle.std.specs.Prelude.{⊤};
ghost use Rattle.stripe_delayed_store.specs.Rows.{StoredRowsCanBeWritten};
ghost use Rattle.stripe_delayed_store.specs.Stored.{DelayedWritesStaySafe, StoredRowsStand};

/// A write that is only told, and not yet done, leaves an array safe.
pub fn delayed_writes_stay_safe()
    ensures { DelayedWritesStaySafe ⊤ }
{}

/// A row that is stored stands as the list has it, and all other rows stand as they are stored.
pub fn stored_rows_stand()
    ensures { StoredRowsStand }
{}

/// A row that stands as it is stored can be written by another list that differs at the changed roles alone.
pub fn stored_rows_can_be_written()
    ensures { StoredRowsCanBeWritten }
{}
