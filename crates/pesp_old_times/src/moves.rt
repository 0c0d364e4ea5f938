//! How far events have moved.

ghost use Rattle.std.specs.Prelude.{◌≡◌, ◌≤◌, length};
ghost use Rattle.pesp_old_times.specs.Moves as spec;

/// How many events aren't where they are wanted, and how far the farthest is from there, by the shorter way round.
#[derive(Clone, Copy, PartialEq, Eq)]
pub struct Moves {
    pub moved: usize,
    pub most: u32,
}

/// How far two times of a period are from one another, by the shorter way round.
fn distance(period: u32, from: u32, to: u32) -> u32
    ensures { result ≡ spec.circular_distance period from to }
{
    let apart = from.abs_diff(to);
    apart.min(period.saturating_sub(apart))
}

/// How far an event has moved: not at all where no time is wanted of it.
fn move_of(period: u32, wanted: Option<u32>, time: u32) -> u32
    ensures { result ≡ spec.move_of period wanted time }
{
    match wanted {
        Some(wanted) => distance(period, wanted, time),
        None => 0,
    }
}

/// 1 where an event has moved, else 0.
fn some_move(by: u32) -> usize
    ensures exact { result ≡ spec.some_move by }
    ensures small { result ≤ 1 }
{
    if by == 0 { 0 } else { 1 }
}

/// How far events have moved to these times from the wanted ones, where one is wanted of them.
pub fn moves_of(period: u32, wanted: &[Option<u32>], times: &[u32]) -> Moves
    requires { length times.now ≡ length wanted.now }
    ensures moved { result.moved ≡ spec.count_moved period wanted.now times.now (length wanted.now) }
    ensures most { result.most ≡ spec.farthest period wanted.now times.now (length wanted.now) }
{
    let mut moved = 0usize;
    let mut most = 0u32;
    for place in 0..wanted.len() {
        let by = move_of(period, wanted[place], times[place]);
        moved += some_move(by);
        most = most.max(by);
    }
    Moves { moved, most }
}
