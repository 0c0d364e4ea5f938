//! The kinds of line.

/// What the first word of a line says about it. The first line of version 3 is known as a whole, so no word says `Front`.
#[derive(Clone, Copy)]
pub enum Kind {
    Front,
    Scale,
    Walk,
    Lemma,
    Least,
    Version,
    Period,
    Answer,
    Time,
    Cycle,
    Slack,
    Offset,
    Bound,
    Nothing,
    Gap,
    Propagated,
    End,
}
