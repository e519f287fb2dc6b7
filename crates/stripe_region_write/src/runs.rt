//! The runs that a write of the list is cut in, each placed by one shape.

ghost use Rattle.std.specs.Prelude.{◌≡◌, ◌⊎◌, ◌-◌, ◌<◌, ◌≤◌, ℕ, length, None, MatchOption, true, false};
ghost use Rattle.stripe_region_read.specs.sb_specs_Reading.{is_reshaping, list_length, role_count};
ghost use Rattle.stripe_region_read.specs.history_Stands.{covers};
ghost use Rattle.stripe_region_read.specs.crash_views_Regions.{AreShapesFit};
ghost use Rattle.stripe_region_read.specs.array_members_Placed.{IsInForce};
ghost use Rattle.stripe_region_read.specs.array_members_Lacking.{DoesWithout};
ghost use Rattle.stripe_region_read.specs.sb_safe_updates_First.{write_refusal};
ghost use Rattle.stripe_region_write.specs.Runs.{IsRun, IsRelied, AreRuns, AreRunsTorn, AreRunsUnwritten};

use stripe_region_read::stretches::{relied_rows, stretch_at};
use stripe_region_read::{
    Members, Refusal, Shape, Span, first_write_refusal, list_length, too_many_of,
};

/// Sectors of the list that are placed by one shape, from one up to another, and whether parity is relied on in each row that they touch.
#[derive(Clone, Copy)]
pub struct Run {
    pub shape: Shape,
    pub first: u64,
    pub end: u64,
    pub synced: bool,
}

/// Sectors of the list, cut at the position: those below it, or all, and the others.
#[derive(Clone, Copy)]
pub struct Cut {
    pub low: Run,
    pub high: Run,
}

// The end of what lies before this sector, without what lies in the window right before it.
fn end_beside(window: Option<Span>, end: u64) -> u64
    ensures within { result ≤ end }
    ensures inside { (x : ℕ) → result ≤ x → x < end → covers window x ≡ true }
    ensures last { 0 < result → covers window (result - 1) ≡ false }
{
    match window {
        None => end,
        Some(span) => {
            if span.lo < end && end <= span.hi {
                span.lo
            } else {
                end
            }
        }
    }
}

// The longest run from a sector of the list on, up to `to`.
fn run_at(members: &Members, window: Option<Span>, from: u64, to: u64, relied: u64) -> Run
    requires fit { AreShapesFit members.now.newest }
    requires some { from < to }
    requires within { to ≤ list_length members.now.newest }
    ensures run { IsRun members.now.newest result }
    ensures relied { IsRelied members.now.newest window relied result }
    ensures first { result.first ≡ from }
    ensures some { from < result.end }
    ensures within { result.end ≤ to }
    ensures longest { (result.end ≡ to) ⊎ ((is_reshaping members.now.newest ≡ true) × (result.end ≡ members.now.newest.reshape_position)) }
{
    let stretch = stretch_at(members, from, to);
    let rows = relied_rows(members, relied, &stretch.shape);
    let end = end_beside(window, stretch.end);
    let synced = end <= from.max(list_length(&stretch.shape, rows));
    Run {
        shape: stretch.shape,
        first: from,
        end: stretch.end,
        synced,
    }
}

/// Cuts the sectors of the list from `first` up to `to` at the position, where parity is relied on up to sector `relied`, and in the
/// window, if there is one.
pub fn runs_of(members: &Members, window: Option<Span>, first: u64, to: u64, relied: u64) -> Cut
    requires fit { AreShapesFit members.now.newest }
    requires some { first < to }
    requires within { to ≤ list_length members.now.newest }
    ensures { AreRuns members.now.newest window relied first to result.low result.high }
{
    let low = run_at(members, window, first, to, relied);
    if low.end == to {
        return Cut {
            low,
            high: Run {
                shape: low.shape,
                first: to,
                end: to,
                synced: true,
            },
        };
    }
    Cut {
        low,
        high: run_at(members, window, low.end, to, relied),
    }
}

/// The refusal where more roles are missing than a run's shape tolerates: that of the first run first.
pub fn too_many_runs(members: &Members, low: &Run, high: &Run) -> Option<Refusal>
    requires fit { AreShapesFit members.now.newest }
    requires roles { length members.now.roles ≡ role_count members.now.newest }
    requires low { IsInForce members.now.newest low.now.shape }
    requires high { IsInForce members.now.newest high.now.shape }
    ensures { MatchOption result (DoesWithout low.now.shape members.now × DoesWithout high.now.shape members.now) (AreRunsTorn low.now high.now members.now) }
{
    let refusal = too_many_of(members, &low.shape);
    if refusal.is_some() {
        return refusal;
    }
    too_many_of(members, &high.shape)
}

/// Why two runs can't be written: too many roles are missing of one of their shapes, or else one that has data, in a run in which parity
/// isn't relied on.
pub fn first_runs_refusal(members: &Members, low: &Run, high: &Run) -> Option<Refusal>
    requires fit { AreShapesFit members.now.newest }
    requires roles { length members.now.roles ≡ role_count members.now.newest }
    requires low { IsInForce members.now.newest low.now.shape }
    requires high { IsInForce members.now.newest high.now.shape }
    ensures { MatchOption result ((write_refusal low.now.shape low.now.synced members.now ≡ None) × (write_refusal high.now.shape high.now.synced members.now ≡ None))
        (AreRunsUnwritten low.now high.now members.now) }
{
    let refusal = too_many_runs(members, low, high);
    if refusal.is_some() {
        return refusal;
    }
    let refusal = first_write_refusal(members, &low.shape, low.synced);
    if refusal.is_some() {
        return refusal;
    }
    first_write_refusal(members, &high.shape, high.synced)
}
