//! Laws of histories: how they grow, call by call, and that plain ones are legal. Each function's contract is the law.
#![tactic(auto)]

ghost use Rattle.history.specs.Growing.{CallsOweTheirMarks, MarksStaySafe, NumbersCountCalls, RepliesStayFit, ReshapesAddUp, ReshapesStayRight, SafeThroughoutSuffices};
ghost use Rattle.history.specs.Plain.{PlainHistoriesAreLegal};
ghost use Rattle.history.specs.Seen.{AnswersStay};
ghost use Rattle.history_laws.specs.OneShapeGrowth.{OneShapeHistoriesGoOn, OneShapeHistoriesGrow, OpenCallsAreNumbered};

pub use history::{
    Entries, Entry, Epoch, Event, LostCause, Refusal, Request, Sectors, Who, contains,
};

/// A mark that was safe stays safe, whatever is done and entered after it.
pub fn points_stay_safe()
    ensures { MarksStaySafe }
{}

/// A call owes the marks that it adds, and the one at which it began.
pub fn calls_owe_their_points()
    ensures { CallsOweTheirMarks }
{}

/// In a legal history a caller's next number is how many calls it has made.
pub fn numbers_count_calls()
    ensures { NumbersCountCalls }
{}

/// An epoch that is safe at every mark of its tape is crash-safe, wherever in the tape it ends.
pub fn safe_throughout_suffices()
    ensures { SafeThroughoutSuffices }
{}

/// What was reshaped right stays so, whatever is done after it.
pub fn reshapes_stay_right()
    ensures { ReshapesStayRight }
{}

/// A history with a new call behind it is reshaped right where both are.
pub fn reshapes_add_up()
    ensures { ReshapesAddUp }
{}

/// A reply that fits its request goes on to fit it, whatever is done after it.
pub fn replies_stay_fit()
    ensures { RepliesStayFit }
{}

/// What is answered of a caller's requests stays so, whatever more is seen.
pub fn answers_stay()
    ensures { AnswersStay }
{}

/// A history without losses of an array that can do without no member is legal, and no reshape is in it.
pub fn plain_histories_are_legal()
    ensures { PlainHistoriesAreLegal }
{}

/// A history of an array that keeps its shape is legal with a new call behind it where both are.
pub fn one_shape_histories_grow()
    ensures { OneShapeHistoriesGrow }
{}

/// So it is with more entries of a call that goes on.
pub fn one_shape_histories_go_on()
    ensures go_on { OneShapeHistoriesGoOn }
    ensures numbered { OpenCallsAreNumbered }
{}
