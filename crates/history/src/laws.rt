//! Laws of the definitions.

ghost use Rattle.history.specs.Growing.{CallsAddUp, HistoriesStayLegal, MoreValuesSuffice};
ghost use Rattle.history.specs.Reopened.{SettledListsAreFound, SoundArraysAreFound};
ghost use Rattle.history.specs.Images.{BoundsServeEachMark, FlushesMakeNoImage, WithoutLossAllAssemble, WritesMakeTheirImages};
ghost use Rattle.history.specs.OneShape.{LossesAreGone, OneShapeHistoriesAreLegal, OneShapeRepliesFit};
ghost use Rattle.history.specs.Same.{OnlyGivenSlotsAreSeen, StandsByItsRow, VerdictIsOfSuperblocks, WritesElsewhereAreUnseen};
ghost use Rattle.history.specs.Settled.{SourcesSuffice};

/// Where sections and sources hold at a mark, every image there is right.
pub fn sources_suffice()
    ensures { SourcesSuffice }
{}

/// A legal history stays legal, whatever is done after it.
pub fn histories_stay_legal()
    ensures { HistoriesStayLegal }
{}

/// A history with a new call behind it is legal where both are.
pub fn calls_add_up()
    ensures { CallsAddUp }
{}

/// What is written elsewhere doesn't change the verdict.
pub fn verdict_is_of_superblocks()
    ensures { VerdictIsOfSuperblocks }
{}

/// One proof for many values serves each mark at which a stop leaves only some of them.
pub fn more_values_suffice()
    ensures { MoreValuesSuffice }
{}

/// A write elsewhere than in the superblocks changes neither the reading nor the verdict.
pub fn writes_elsewhere_are_unseen()
    ensures { WritesElsewhereAreUnseen }
{}

/// What stands at a sector is decided by the superblocks, the section and its row alone.
pub fn holds_by_its_row()
    ensures { StandsByItsRow }
{}

/// A flush makes no new image.
pub fn flushes_make_no_image()
    ensures { FlushesMakeNoImage }
{}

/// After a write an image is a former one, or a former one with the write done.
pub fn writes_make_their_images()
    ensures { WritesMakeTheirImages }
{}

/// One proof for a bound on what sectors hold over a stretch gives every mark of it.
pub fn bounds_serve_each_point()
    ensures { BoundsServeEachMark }
{}

/// Where no role was lost and none was taken over, every image of a safe mark assembles.
pub fn without_loss_all_assemble()
    ensures { WithoutLossAllAssemble }
{}

/// A slot that isn't given is seen neither by the verdict nor by the flat list.
pub fn only_given_slots_are_seen()
    ensures { OnlyGivenSlotsAreSeen }
{}

/// What was flushed or stopped is found again by the next epoch in the same slots that opens accepted, sector by sector.
pub fn settled_lists_are_found()
    ensures { SettledListsAreFound }
{}

/// What was opened fit, and stays sound, is found sound by the next epoch in the same slots that opens accepted.
pub fn sound_arrays_are_found()
    ensures { SoundArraysAreFound }
{}

/// In an array of one shape what is lost is gone until it is rebuilt, and what is unclean isn't resynced, or is written.
pub fn losses_are_missing()
    ensures { LossesAreGone }
{}

/// A history of an array that keeps its shape is legal over a bank that was found so, and no reshape is in it.
pub fn one_shape_histories_are_legal()
    ensures { OneShapeHistoriesAreLegal }
{}

/// A reply of an array that keeps its shape fits its request over a bank with a list of that size at the opening.
pub fn one_shape_replies_fit()
    ensures { OneShapeRepliesFit }
{}
