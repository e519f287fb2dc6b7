//! Laws of what the steps of a window leave of an array that is safe. Each function's contract is the law.

ghost use Rattle.std.specs.Prelude.{⊤};
ghost use Rattle.reshape_window_steps.specs.Laws.{SectionsStaySteady, ClearingStaysSteady, CopyingStaysSteady, ZeroingStaysSteady, CopyingStaysSafe, ZeroingStaysSafe, RowsAreOfStripes, PastRowsAreOfStripes};

/// While no section is active, one is stored and named: at each mark of the backup's call the array stays steady.
pub fn stored_and_named_sections_stay_steady()
    ensures { SectionsStaySteady ⊤ }
{}

/// And so it does where a header is cleared.
pub fn cleared_headers_stay_steady()
    ensures { ClearingStaysSteady ⊤ }
{}

/// A window is copied, whichever slots are lost meanwhile.
pub fn a_copied_window_stays_safe()
    ensures steady { CopyingStaysSteady ⊤ }
    ensures safe { CopyingStaysSafe ⊤ }
{}

/// Rows behind the list are zeroed.
pub fn zeroed_rows_stay_safe()
    ensures steady { ZeroingStaysSteady ⊤ }
    ensures safe { ZeroingStaysSafe ⊤ }
{}

/// The stripes of a window have all rows that it writes.
pub fn a_windows_rows_are_of_its_stripes()
    ensures { RowsAreOfStripes }
{}

/// And the stripes behind the list all rows there.
pub fn rows_after_the_list_are_of_its_stripes()
    ensures { PastRowsAreOfStripes }
{}
