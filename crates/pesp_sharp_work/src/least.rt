//! The least of a cost and of what lines show.

ghost use Rattle.std.specs.Prelude.{◌≡◌, ◌↔◌, IsTrue};
ghost use Rattle.pesp_sharp_work.specs.Told as spec;

/// The lesser of two numbers; None stands above every number.
fn lesser(a: Option<u64>, b: Option<u64>) -> Option<u64>
    ensures { result ≡ spec.lesser_bound a b }
{
    match (a, b) {
        (None, b) => b,
        (Some(a), None) => Some(a),
        (Some(a), Some(b)) => Some(a.min(b)),
    }
}

/// The least of a cost and of what lines show; None where there is neither.
pub(crate) fn least_shown(shown: &[Option<u64>], cost: Option<u64>) -> Option<u64>
    ensures { result ≡ spec.least_shown cost shown.now }
{
    let mut least = cost;
    for value in shown {
        least = lesser(*value, least);
    }
    least
}

/// Whether both are missing, or they are the same number.
pub(crate) fn is_same(a: Option<u64>, b: Option<u64>) -> bool
    ensures { IsTrue result ↔ (a ≡ b) }
{
    match (a, b) {
        (None, None) => true,
        (Some(a), Some(b)) => a == b,
        (None, Some(_)) => false,
        (Some(_), None) => false,
    }
}
