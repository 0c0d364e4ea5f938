//! How far the stations of a corridor are from its first one.

use std::alloc::{AllocError, Global};

/// How far it is from one station to another one, along rising or falling distances. None where it isn't beyond.
fn leg_between(from: u32, to: u32, falls: bool) -> Option<u32> {
    let leg = if falls {
        from.checked_sub(to)?
    } else {
        to.checked_sub(from)?
    };
    if leg == 0 { None } else { Some(leg) }
}

/// How far a station is from the first one, where the one before is so far on the way. `last` is the distance that was told last.
/// A station of which nothing is told is no farther.
fn distance_behind(way: u32, last: Option<u32>, told: Option<u32>, falls: bool) -> Option<u32> {
    match (last, told) {
        (Some(from), Some(to)) => way.checked_add(leg_between(from, to, falls)?),
        _ => Some(way),
    }
}

/// How far each station is from the first one, along rising or falling distances. None where they don't go so.
fn distances_in(
    alloc: Global,
    told: &[Option<u32>],
    falls: bool,
) -> Result<Option<Vec<u32>>, AllocError> {
    let mut distances = Vec::new(alloc);
    let (mut way, mut last) = (0, None);
    for distance in told {
        let Some(next) = distance_behind(way, last, *distance, falls) else {
            return Ok(None);
        };
        distances.push(next)?;
        way = next;
        last = distance.or(last);
    }
    Ok(if way == 0 { None } else { Some(distances) })
}

/// How far each station is from the first one, by what is told of each. A station of which nothing is told is as far as the one
/// before it. None where distances neither rise nor fall, or fewer than two are told.
pub fn distances_along(
    alloc: Global,
    told: &[Option<u32>],
) -> Result<Option<Vec<u32>>, AllocError> {
    match distances_in(alloc, told, false)? {
        Some(rising) => Ok(Some(rising)),
        None => distances_in(alloc, told, true),
    }
}
