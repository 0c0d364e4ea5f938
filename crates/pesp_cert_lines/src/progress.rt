//! How far a text has come.

ghost use Rattle.std.specs.Prelude.{◌≡◌, ◌≤◌};
ghost use Rattle.pesp_cert_lines.specs.Counts.{progress_after, at_place, after_tree, counted_after, keeps_counts, ProgressIsKept, beginning, may_follow, may_follow_walks, may_end, has_kind, allows, is_in_front, is_behind_front};

use crate::item::Item;
use crate::kind::Kind;
use crate::rows::MOST_WORDS;
use crate::versions::{Versions, takes_fronts};
use pesp_problem::{MOST_CYCLES, MOST_EVENTS, MOST_LINES, MOST_PAIRS, MOST_SIGNED_ROWS};

/// Where in a text the last line stood.
#[derive(Clone, Copy, PartialEq, Eq)]
pub enum Place {
    /// Before the first line.
    Front,
    /// Behind the first line of version 3.
    Marked,
    /// Behind the scale, or a marked walk.
    Walks,
    /// Behind the rows of a lemma.
    Lemma,
    /// Behind what a lemma's sum is at least.
    Least,
    /// Behind the certificate's own first line.
    Header,
    /// Behind the period.
    Period,
    /// Behind the answer, or a time.
    Times,
    /// Behind a cycle.
    Cycles,
    /// Behind a line of the tree.
    Tree,
}

/// How far a text has come: which versions are taken, the version that the certificate's own first line says, 0 before it, how
/// many trees are still to come, how many lines, signed rows, pairs, marked walks, marked rows and lemmas came, and whether the
/// lines show a lemma. What shows a lemma is counted from its first line on, and the certificate's own lines from theirs.
#[derive(Clone, Copy)]
pub struct Progress {
    pub versions: Versions,
    pub place: Place,
    pub version: u32,
    pub needs: u64,
    pub times: u64,
    pub cycles: u64,
    pub rows: u64,
    pub lines: u64,
    pub pairs: u64,
    pub walks: u64,
    pub marked: u64,
    pub lemmas: u64,
    pub shows: bool,
}

impl Progress {
    ghost use Rattle.std.specs.Prelude.{◌≡◌};
    ghost use Rattle.pesp_cert_lines.specs.Counts.{ProgressIsKept, beginning};

    /// Before the first line of a text: one tree is still to come.
    pub fn new(versions: Versions) -> Progress
        ensures exact { result ≡ beginning versions }
        ensures kept { ProgressIsKept result }
    {
        Progress {
            versions,
            place: Place::Front,
            version: 0,
            needs: 1,
            times: 0,
            cycles: 0,
            rows: 0,
            lines: 0,
            pairs: 0,
            walks: 0,
            marked: 0,
            lemmas: 0,
            shows: false,
        }
    }
}

/// Whether every count is within its limit.
fn keeps_counts(progress: &Progress) -> bool
    ensures { result ≡ keeps_counts progress.now }
{
    progress.times <= MOST_EVENTS as u64
        && progress.cycles <= MOST_CYCLES as u64
        && progress.rows <= MOST_SIGNED_ROWS as u64
        && progress.lines <= MOST_LINES as u64
        && progress.pairs <= MOST_PAIRS as u64
        && progress.walks <= MOST_CYCLES as u64
        && progress.marked <= MOST_SIGNED_ROWS as u64
        && progress.lemmas <= MOST_CYCLES as u64
}

/// How far the text has come with a line of the tree that asks for `parts` trees and has so many pairs.
fn after_tree(progress: &Progress, parts: u64, pairs: u64) -> Progress
    requires kept { ProgressIsKept progress.now }
    requires few { (parts ≤ 2) × (pairs ≤ MOST_WORDS) }
    ensures { result ≡ after_tree progress.now parts pairs }
{
    Progress {
        place: Place::Tree,
        needs: (progress.needs + parts).saturating_sub(1),
        lines: progress.lines + 1,
        pairs: progress.pairs + pairs,
        ..*progress
    }
}

/// The same with the last line here.
fn at_place(progress: &Progress, place: Place) -> Progress
    ensures { result ≡ at_place progress.now place }
{
    Progress { place, ..*progress }
}

/// How far the text has come with this item.
fn after(progress: &Progress, item: &Item<'_>) -> Progress
    requires { ProgressIsKept progress.now }
    ensures { result ≡ progress_after progress.now item.now }
{
    match item {
        Item::Front => at_place(progress, Place::Marked),
        Item::Scale(_) => at_place(progress, Place::Walks),
        Item::Walk(rows) => Progress {
            place: Place::Walks,
            walks: progress.walks + 1,
            marked: progress.marked + rows.left(),
            ..*progress
        },
        Item::Lemma(_) => Progress {
            place: Place::Lemma,
            lemmas: progress.lemmas + 1,
            shows: true,
            ..Progress::new(progress.versions)
        },
        Item::Least(_) => at_place(progress, Place::Least),
        Item::Version(version) => Progress {
            place: Place::Header,
            version: *version,
            ..Progress::new(progress.versions)
        },
        Item::Period(_) => at_place(progress, Place::Period),
        Item::Answer(_) => at_place(progress, Place::Times),
        Item::Time(_, _) => Progress {
            times: progress.times + 1,
            ..*progress
        },
        Item::Cycle(rows) => Progress {
            place: Place::Cycles,
            cycles: progress.cycles + 1,
            rows: progress.rows + rows.left(),
            ..*progress
        },
        Item::Slack { .. } | Item::Offset { .. } => after_tree(progress, 2, 0),
        Item::Bound(pairs) | Item::Nothing(pairs) => after_tree(progress, 0, pairs.left()),
        Item::Gap(_) | Item::Propagated => after_tree(progress, 0, 0),
        Item::End => *progress,
    }
}

/// The same, if every count stays within its limit.
pub(crate) fn counted(progress: &Progress, item: &Item<'_>) -> Option<Progress>
    requires { ProgressIsKept progress.now }
    ensures { result ≡ counted_after progress.now item.now }
{
    let next = after(progress, item);
    if keeps_counts(&next) {
        Some(next)
    } else {
        None
    }
}

/// Whether a line of this kind may stand behind a scale or a marked walk: of the front, or of a lemma that is shown.
fn may_follow_walks(shows: bool, kind: Kind) -> bool
    ensures { result ≡ may_follow_walks shows kind }
{
    match kind {
        Kind::Walk => true,
        Kind::Lemma | Kind::Version => !shows,
        Kind::Cycle
        | Kind::Slack
        | Kind::Offset
        | Kind::Bound
        | Kind::Nothing
        | Kind::Gap
        | Kind::Propagated => shows,
        _ => false,
    }
}

/// Whether a line of this kind may stand next, while the tree is not complete.
fn may_follow(place: Place, shows: bool, kind: Kind) -> bool
    ensures { result ≡ may_follow place shows kind }
{
    match place {
        Place::Front => matches!(kind, Kind::Version | Kind::Front),
        Place::Marked => matches!(kind, Kind::Scale),
        Place::Walks => may_follow_walks(shows, kind),
        Place::Lemma => matches!(kind, Kind::Least),
        Place::Least => matches!(kind, Kind::Scale),
        Place::Header => matches!(kind, Kind::Period),
        Place::Period => matches!(kind, Kind::Answer),
        Place::Times => matches!(
            kind,
            Kind::Time
                | Kind::Cycle
                | Kind::Slack
                | Kind::Offset
                | Kind::Bound
                | Kind::Nothing
                | Kind::Gap
                | Kind::Propagated
        ),
        Place::Cycles => matches!(
            kind,
            Kind::Cycle
                | Kind::Slack
                | Kind::Offset
                | Kind::Bound
                | Kind::Nothing
                | Kind::Gap
                | Kind::Propagated
        ),
        Place::Tree => matches!(
            kind,
            Kind::Slack | Kind::Offset | Kind::Bound | Kind::Nothing | Kind::Gap | Kind::Propagated
        ),
    }
}

/// Whether texts of this version have lines of this kind, where these versions are taken.
fn has_kind(versions: Versions, version: u32, shows: bool, kind: Kind) -> bool
    ensures { result ≡ has_kind versions version shows kind }
{
    match kind {
        Kind::Propagated => shows || version >= 2,
        Kind::Front => takes_fronts(versions),
        _ => true,
    }
}

/// Whether this is behind a line of a front, or of a lemma.
pub(crate) fn is_in_front(place: Place, shows: bool) -> bool
    ensures { result ≡ is_in_front place shows }
{
    match place {
        Place::Marked | Place::Walks | Place::Lemma | Place::Least => true,
        _ => shows,
    }
}

/// Whether the certificate's own first line stands here, behind a front.
pub(crate) fn is_behind_front(place: Place, shows: bool, kind: Kind) -> bool
    ensures { result ≡ is_behind_front place shows kind }
{
    (shows || matches!(place, Place::Walks)) && matches!(kind, Kind::Version)
}

/// Whether a line of this kind may stand behind a whole tree: the next lemma or the certificate's own first line where it is a
/// lemma's, else `end`.
fn may_end(shows: bool, kind: Kind) -> bool
    ensures { result ≡ may_end shows kind }
{
    match kind {
        Kind::End => !shows,
        Kind::Lemma | Kind::Version => shows,
        _ => false,
    }
}

/// Whether a line of this kind may stand next.
pub(crate) fn allows(progress: &Progress, kind: Kind) -> bool
    ensures { result ≡ allows progress.now kind }
{
    if progress.needs == 0 {
        may_end(progress.shows, kind)
    } else {
        may_follow(progress.place, progress.shows, kind)
            && has_kind(progress.versions, progress.version, progress.shows, kind)
    }
}
