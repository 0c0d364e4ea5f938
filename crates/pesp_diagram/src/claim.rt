//! What a certificate claims.

/// What the line `answer` of a certificate claims, where a text has one. Whether that is true the checker alone can tell.
#[derive(Clone, Copy, PartialEq, Eq)]
pub enum Claim {
    /// No timetable costs less than this one.
    Optimal,
    /// No timetable costs less than so much.
    Open { bound: u64 },
    /// Nothing is claimed.
    Nothing,
}

/// The number that a word spells.
fn number_of(word: Option<&str>) -> Option<u64> {
    word?.parse::<u64>().ok()
}

/// What a line of a certificate claims, if it is the one that does.
fn claim_of_line(line: &[u8]) -> Option<Claim> {
    let line = str::from_utf8(line).ok()?;
    let mut words = line.strip_prefix("answer ")?.split(' ');
    match words.next()? {
        "optimal" => Some(Claim::Optimal),
        "open" => Some(Claim::Open {
            bound: number_of(words.next())?,
        }),
        _ => None,
    }
}

/// What a text claims: what its first line that begins with `answer ` does.
pub fn claim_in(text: &[u8]) -> Claim {
    for line in text.split(|byte| *byte == b'\n') {
        if line.starts_with(b"answer ") {
            return claim_of_line(line).unwrap_or(Claim::Nothing);
        }
    }
    Claim::Nothing
}
