//! The text of a reply.

ghost use Rattle.std.specs.Prelude.{◌≡◌, ℕ, ◌+◌, ◌*◌, ◌<◌, ◌≤◌, [], ◌∷◌, ◌++◌, length, drop, map, slice_index_or, codes, decimal};
ghost use Rattle.script.specs.Appends.{Appends, AppendsFew};
ghost use Rattle.script.specs.Looks.{kind_seen};
ghost use Rattle.script.specs.Texts.{assembled_text, busy_word, created_text, ending_text, event_text, field_word, is_same, kind_of, kind_text, kinds, lane_text, layout_text, refusal_text, refused, run_text, runs, runs_text, sectors_read, shape_text, shown_text, worker_refusal_text, waited_text, worker_text, Hex};

use crate::seeds::seed_contents;
use history::{BusyKind, Event, Refusal, Sectors, Shape, ShapeField, Status};
use script_words::{are_alike, layout_name};
use std::alloc::AllocError;

/// Appends `created`.
pub fn push_created(text: &mut Vec<u8>) -> Result<(), AllocError>
    ensures appended { Appends text.old text.new result created_text }
    ensures short { AppendsFew 7 text.old text.new result }
{
    text.extend_from_slice(b"created")
}

/// Appends the reply of a call whose last entry has this event, without the newline.
/// Events that are no reply of a line append nothing.
pub fn push_event(text: &mut Vec<u8>, event: &Event) -> Result<(), AllocError>
    ensures appended { Appends text.old text.new result (event_text event.now) }
    ensures short { AppendsFew (200 + 1100 * sectors_read event.now) text.old text.new result }
{
    match event {
        Event::Read { at, body } => push_read(text, *at, body),
        Event::Wrote { at, body } => push_wrote(text, *at, body),
        Event::Flushed => text.extend_from_slice(b"flushed"),
        Event::Added { slot } => push_counted(text, "added ", u64::from(*slot)),
        Event::Failed { role } => push_counted(text, "failed ", u64::from(*role)),
        Event::Visible { count, .. } => push_counted(text, "visible ", *count),
        Event::Planned { left, .. } => push_counted(text, "planned ", *left),
        Event::Stepped { done, left, ended } => push_stepped(text, *done, *left, ended),
        Event::Stopped => text.extend_from_slice(b"stopped"),
        Event::Halted => text.extend_from_slice(b"halted"),
        Event::Refused { refusal } => push_refusal(text, refusal),
        _ => Ok(()),
    }
}

/// Appends `refused NUMBER NAME VALUES`.
pub fn push_refusal(text: &mut Vec<u8>, refusal: &Refusal) -> Result<(), AllocError>
    ensures appended { Appends text.old text.new result (refusal_text refusal.now) }
    ensures short { AppendsFew 100 text.old text.new result }
{
    match *refusal {
        Refusal::PastEnd(visible) => push_refused(text, 1, "PastEnd", &[visible]),
        Refusal::TooManyMissing(gone, most) => push_pair(text, 2, "TooManyMissing", gone, most),
        Refusal::NotResynced(role) => push_refused(text, 3, "NotResynced", &[u64::from(role)]),
        Refusal::BackupFault => push_refused(text, 4, "BackupFault", &[]),
        Refusal::NoSuchRole(role) => push_refused(text, 5, "NoSuchRole", &[u64::from(role)]),
        Refusal::SlotTaken(slot) => push_refused(text, 6, "SlotTaken", &[u64::from(slot)]),
        Refusal::SlotTooSmall(have, want) => push_pair(text, 7, "SlotTooSmall", have, want),
        Refusal::PastSize(size) => push_refused(text, 8, "PastSize", &[size]),
        Refusal::SlotFault(slot) => push_refused(text, 9, "SlotFault", &[u64::from(slot)]),
        Refusal::Busy(kind) => push_worded(text, 10, "Busy", busy_name(kind)),
        Refusal::Degraded(role) => push_refused(text, 11, "Degraded", &[u64::from(role)]),
        Refusal::SameShape => push_refused(text, 12, "SameShape", &[]),
        Refusal::BadShape(field) => push_worded(text, 13, "BadShape", field_name(field)),
        Refusal::SizeNotMultiple(size, by) => push_pair(text, 14, "SizeNotMultiple", size, by),
        Refusal::NeedSpares(have, want) => push_pair(text, 15, "NeedSpares", have, want),
        Refusal::NeedBackup => push_refused(text, 16, "NeedBackup", &[]),
        Refusal::BackupTooSmall(have, want) => push_pair(text, 17, "BackupTooSmall", have, want),
        Refusal::ArraySizeFirst(size, least) => push_pair(text, 18, "ArraySizeFirst", size, least),
        Refusal::Nothing => push_refused(text, 19, "Nothing", &[]),
        Refusal::NoSuperblock => push_refused(text, 20, "NoSuperblock", &[]),
        Refusal::Unsupported(bits) => push_refused(text, 21, "Unsupported", &[bits]),
        Refusal::BadField(offset) => push_refused(text, 22, "BadField", &[offset]),
        Refusal::TwoHolders(device) => push_refused(text, 23, "TwoHolders", &[u64::from(device)]),
        Refusal::MembersMissing(gone, most) => push_pair(text, 24, "MembersMissing", gone, most),
        Refusal::DirtyDegraded(role) => push_refused(text, 25, "DirtyDegraded", &[u64::from(role)]),
        Refusal::PositionNotOnUnit(at, unit) => push_pair(text, 26, "PositionNotOnUnit", at, unit),
        Refusal::BackupAbsent => push_refused(text, 27, "BackupAbsent", &[]),
        Refusal::NotRunning => push_refused(text, 28, "NotRunning", &[]),
        Refusal::Running => push_refused(text, 29, "Running", &[]),
        Refusal::NoSuchSlot(slot) => push_refused(text, 30, "NoSuchSlot", &[u64::from(slot)]),
        Refusal::UuidInUse(slot) => push_refused(text, 31, "UuidInUse", &[u64::from(slot)]),
    }
}

/// Appends the reply of `wait` whose last call has this event.
pub fn push_waited(text: &mut Vec<u8>, event: &Event) -> Result<(), AllocError>
    ensures appended { Appends text.old text.new result (waited_text event.now) }
    ensures short { AppendsFew 140 text.old text.new result }
{
    match event {
        Event::Stepped { left, ended, .. } => push_left(text, "waited left ", *left, ended),
        Event::Refused {
            refusal: Refusal::Nothing,
        } => push_left(text, "waited left ", 0, &None),
        Event::Refused { refusal } => push_refusal(text, refusal),
        _ => Ok(()),
    }
}

/// Appends the worker's reply whose last call has this event, behind `worker: `.
pub fn push_worker(text: &mut Vec<u8>, event: &Event) -> Result<(), AllocError>
    ensures appended { Appends text.old text.new result (worker_text event.now) }
    ensures short { AppendsFew 140 text.old text.new result }
{
    match event {
        Event::Stepped { left, ended, .. } => push_left(text, "left ", *left, ended),
        Event::Refused { refusal } => push_worker_refusal(text, refusal),
        _ => Ok(()),
    }
}

/// Appends the reply of a worker that was refused, behind `worker: `.
pub fn push_worker_refusal(text: &mut Vec<u8>, refusal: &Refusal) -> Result<(), AllocError>
    ensures appended { Appends text.old text.new result (worker_refusal_text refusal.now) }
    ensures short { AppendsFew 140 text.old text.new result }
{
    match *refusal {
        Refusal::Nothing => push_left(text, "left ", 0, &None),
        other => push_left(text, "left ", 0, &Some(other)),
    }
}

/// Who a reply is for: the script, a lane beside it, or the worker.
#[derive(Clone, Copy, Debug, PartialEq, Eq)]
pub enum Lane {
    Script,
    A,
    B,
    Worker,
}

/// Appends what stands before a reply of this lane.
pub fn push_lane(text: &mut Vec<u8>, lane: Lane) -> Result<(), AllocError>
    ensures appended { Appends text.old text.new result (lane_text lane) }
    ensures short { AppendsFew 8 text.old text.new result }
{
    match lane {
        Lane::Script => Ok(()),
        Lane::A => text.extend_from_slice(b"a: "),
        Lane::B => text.extend_from_slice(b"b: "),
        Lane::Worker => text.extend_from_slice(b"worker: "),
    }
}

/// Appends the reply of `assemble`.
pub fn push_assembled(text: &mut Vec<u8>, status: &Status) -> Result<(), AllocError>
    ensures appended { Appends text.old text.new result (assembled_text status.now) }
    ensures short { AppendsFew 240 text.old text.new result }
{
    match status.target {
        Some(target) => push_shown(text, &target, status),
        None => push_shown(text, &status.shape, status),
    }
}

fn push_shown(text: &mut Vec<u8>, shape: &Shape, status: &Status) -> Result<(), AllocError>
    ensures appended { Appends text.old text.new result (shown_text shape.now status.now) }
    ensures short { AppendsFew 240 text.old text.new result }
{
    push_words(text, "assembled ")?;
    push_shape(text, shape, status.size)?;
    push_counted(text, " visible ", status.visible)?;
    push_counted(text, " left ", status.left)
}

fn push_shape(text: &mut Vec<u8>, shape: &Shape, size: u64) -> Result<(), AllocError>
    ensures appended { Appends text.old text.new result (shape_text shape.now size) }
    ensures short { AppendsFew 160 text.old text.new result }
{
    push_counted(text, "level ", u64::from(shape.level))?;
    push_counted(text, " disks ", u64::from(shape.disks))?;
    push_counted(text, " chunk ", u64::from(shape.chunk))?;
    push_counted(text, " size ", size)?;
    text.extend_from_slice(b" layout ")?;
    push_layout(text, shape.layout)
}

fn push_words(text: &mut Vec<u8>, words: &str) -> Result<(), AllocError>
    ensures appended { Appends text.old text.new result words.now }
    ensures short { AppendsFew (length words.now) text.old text.new result }
{
    text.extend_from_slice(words.as_bytes())
}

fn push_number(text: &mut Vec<u8>, number: u64) -> Result<(), AllocError>
    ensures appended { Appends text.old text.new result (decimal number) }
    ensures short { AppendsFew 20 text.old text.new result }
{
    let mut buffer = itoa::Buffer::new();
    text.extend_from_slice(buffer.format(number).as_bytes())
}

// A word or two and a number.
fn push_counted(text: &mut Vec<u8>, words: &str, count: u64) -> Result<(), AllocError>
    ensures appended { Appends text.old text.new result (words.now ++ decimal count) }
    ensures short { AppendsFew (length words.now + 20) text.old text.new result }
{
    text.extend_from_slice(words.as_bytes())?;
    push_number(text, count)
}

fn push_refused(
    text: &mut Vec<u8>,
    number: u64,
    name: &str,
    values: &[u64],
) -> Result<(), AllocError>
    ensures appended { Appends text.old text.new result (refused number name.now (map decimal values.now)) }
    ensures short { AppendsFew (30 + length name.now + 21 * length values.now) text.old text.new result }
{
    push_counted(text, "refused ", number)?;
    text.push(b' ')?;
    text.extend_from_slice(name.as_bytes())?;
    for value in values {
        push_counted(text, " ", *value)?;
    }
    Ok(())
}

fn push_pair(
    text: &mut Vec<u8>,
    number: u64,
    name: &str,
    first: u64,
    second: u64,
) -> Result<(), AllocError>
    ensures appended { Appends text.old text.new result (refused number name.now (decimal first ∷ decimal second ∷ [])) }
    ensures short { AppendsFew (72 + length name.now) text.old text.new result }
{
    push_refused(text, number, name, &[first, second])
}

fn push_worded(text: &mut Vec<u8>, number: u64, name: &str, word: &str) -> Result<(), AllocError>
    ensures appended { Appends text.old text.new result (refused number name.now (word.now ∷ [])) }
    ensures short { AppendsFew (31 + length name.now + length word.now) text.old text.new result }
{
    push_refused(text, number, name, &[])?;
    text.push(b' ')?;
    text.extend_from_slice(word.as_bytes())
}

fn busy_name(kind: BusyKind) -> &'static str
    ensures word { result.now ≡ busy_word kind }
    ensures short { length result.now ≤ 7 }
{
    match kind {
        BusyKind::Reshape => "reshape",
        BusyKind::Resync => "resync",
        BusyKind::Rebuild => "rebuild",
        BusyKind::Plan => "plan",
    }
}

fn field_name(field: ShapeField) -> &'static str
    ensures word { result.now ≡ field_word field }
    ensures short { length result.now ≤ 7 }
{
    match field {
        ShapeField::Level => "level",
        ShapeField::Layout => "layout",
        ShapeField::Chunk => "chunk",
        ShapeField::Disks => "disks",
        ShapeField::Size => "size",
        ShapeField::Offset => "offset",
    }
}

fn push_layout(text: &mut Vec<u8>, layout: u32) -> Result<(), AllocError>
    ensures appended { Appends text.old text.new result (layout_text layout) }
    ensures short { AppendsFew 30 text.old text.new result }
{
    match layout_name(layout) {
        Some(name) => text.extend_from_slice(name.as_bytes()),
        None => push_number(text, u64::from(layout)),
    }
}

fn push_wrote(text: &mut Vec<u8>, at: u64, body: &Sectors) -> Result<(), AllocError>
    ensures appended { Appends text.old text.new result (codes "wrote " ++ decimal at ++ codes " " ++ decimal (length body.now)) }
    ensures short { AppendsFew 50 text.old text.new result }
{
    push_counted(text, "wrote ", at)?;
    push_counted(text, " ", body.count() as u64)
}

fn push_stepped(
    text: &mut Vec<u8>,
    done: u64,
    left: u64,
    ended: &Option<Refusal>,
) -> Result<(), AllocError>
    ensures appended { Appends text.old text.new result (codes "stepped " ++ decimal done ++ codes " left " ++ decimal left ++ ending_text ended.now) }
    ensures short { AppendsFew 160 text.old text.new result }
{
    push_counted(text, "stepped ", done)?;
    push_left(text, " left ", left, ended)
}

fn push_left(
    text: &mut Vec<u8>,
    words: &str,
    left: u64,
    ended: &Option<Refusal>,
) -> Result<(), AllocError>
    ensures appended { Appends text.old text.new result (words.now ++ decimal left ++ ending_text ended.now) }
    ensures short { AppendsFew (length words.now + 121) text.old text.new result }
{
    push_counted(text, words, left)?;
    match ended {
        Some(refusal) => {
            text.push(b' ')?;
            push_refusal(text, refusal)
        }
        None => Ok(()),
    }
}

fn push_read(text: &mut Vec<u8>, at: u64, body: &Sectors) -> Result<(), AllocError>
    ensures appended { Appends text.old text.new result (codes "read " ++ decimal at ++ codes " " ++ decimal (length body.now) ++ codes ":" ++ runs_text at body.now) }
    ensures short { AppendsFew (70 + 1100 * length body.now) text.old text.new result }
{
    push_counted(text, "read ", at)?;
    push_counted(text, " ", body.count() as u64)?;
    text.push(b':')?;
    let (sectors, _) = body.as_bytes().as_chunks::<512>();
    push_runs(text, at, sectors)
}

// The kind of a sector; a sector that is shown by its bytes stays where it is.
#[derive(Clone, Copy)]
enum Look {
    Zero,
    Seed(u32),
    Hex,
}

fn look_at(x: u64, sector: &[u8; 512]) -> Look
    ensures { kind_seen result sector.now ≡ kind_of x sector.now }
{
    if are_alike(sector, &[0; 512]) {
        return Look::Zero;
    }
    let seed = u32::from_le_bytes([sector[0], sector[1], sector[2], sector[3]]);
    if are_alike(sector, &seed_contents(seed, x)) {
        Look::Seed(seed)
    } else {
        Look::Hex
    }
}

fn are_same(look: Look, sector: &[u8; 512], other: Look, next: &[u8; 512]) -> bool
    ensures { result ≡ is_same (kind_seen look sector.now) (kind_seen other next.now) }
{
    match (look, other) {
        (Look::Zero, Look::Zero) => true,
        (Look::Seed(seed), Look::Seed(another)) => seed == another,
        (Look::Hex, Look::Hex) => are_alike(sector, next),
        _ => false,
    }
}

// How many sectors of the first one's kind stand at the front, and that kind.
fn first_run(x: u64, sectors: &[[u8; 512]]) -> (Look, usize)
    requires { 0 < length sectors.now }
    ensures within { result.1 ≤ length sectors.now }
    ensures some { 0 < result.1 }
    ensures run { runs (kinds x sectors.now)
        ≡ (kind_seen result.0 (slice_index_or sectors.now 0 []), result.1) ∷ runs (kinds (x + result.1) (drop result.1 sectors.now)) }
{
    let first = &sectors[0];
    let look = look_at(x, first);
    for i in 1..sectors.len() {
        let next = &sectors[i];
        if !are_same(look, first, look_at(x.wrapping_add(i as u64), next), next) {
            return (look, i);
        }
    }
    (look, sectors.len())
}

fn push_run(
    text: &mut Vec<u8>,
    look: Look,
    sector: &[u8; 512],
    count: u64,
) -> Result<(), AllocError>
    ensures appended { Appends text.old text.new result (run_text (kind_seen look sector.now, count)) }
    ensures short { AppendsFew 1100 text.old text.new result }
{
    text.push(b' ')?;
    match look {
        Look::Zero => text.extend_from_slice(b"zero")?,
        Look::Seed(seed) => push_counted(text, "seed ", u64::from(seed))?,
        Look::Hex => push_hex(text, sector)?,
    }
    push_counted(text, " x", count)
}

fn push_hex(text: &mut Vec<u8>, sector: &[u8; 512]) -> Result<(), AllocError>
    ensures appended { Appends text.old text.new result (kind_text (Hex sector.now)) }
    ensures short { AppendsFew 1030 text.old text.new result }
{
    text.extend_from_slice(b"hex ")?;
    let mut digits = [0; 1024];
    let _ = hex::encode_to_slice(sector.as_slice(), &mut digits);
    text.extend_from_slice(&digits)
}

fn push_runs(text: &mut Vec<u8>, at: u64, sectors: &[[u8; 512]]) -> Result<(), AllocError>
    ensures appended { Appends text.old text.new result (runs_text at sectors.now) }
    ensures short { AppendsFew (1100 * length sectors.now) text.old text.new result }
{
    let mut start = 0;
    while start < sectors.len() {
        let rest = &sectors[start..];
        let (look, count) = first_run(at.wrapping_add(start as u64), rest);
        push_run(text, look, &rest[0], count as u64)?;
        start += count;
    }
    Ok(())
}
