//! Laws of delayed rows that are kept and written out. Each function's contract is the law.

ghost use Rattle.stripe_write_back.specs.WrittenOut.{RowsCanBeTaken, OneRowIsWrittenOut, WrittenOutRowByRow, NearerIsAllowed, WrittenOutListsStand, RowsStandOn};
ghost use Rattle.stripe_write_back.specs.Keeping.{KeptRowsStay, EvictedRowsAreWritten, RowsAreWrittenThrough};

/// A row that is taken out can be written as it is kept.
pub fn rows_can_be_taken()
    ensures { RowsCanBeTaken }
{}

/// One row that is taken out and written is a row written out.
pub fn one_row_is_written_out()
    ensures { OneRowIsWrittenOut }
{}

/// And row by row more of them.
pub fn written_out_row_by_row()
    ensures { WrittenOutRowByRow }
{}

/// A row that is kept is in the list, whether none leaves for it, one is written that leaves, or it is written itself.
pub fn rows_are_kept()
    ensures stay { KeptRowsStay }
    ensures evicted { EvictedRowsAreWritten }
    ensures through { RowsAreWrittenThrough }
{}

/// What is stored stays among what a crash may leave, and where none is delayed any more the list itself stands.
pub fn written_out_lists_stand()
    ensures allowed { NearerIsAllowed }
    ensures list { WrittenOutListsStand }
    ensures standing { RowsStandOn }
{}
