//! Sums and products over the rows of an inverse.

use crate::fixed::{is_nothing, times};
use std::alloc::{AllocError, Global};

/// Adds a row times a whole factor to numbers.
pub fn add_row(numbers: &mut [i64], row: &[i64], factor: i32) {
    let factor = i64::from(factor);
    for (number, value) in numbers.iter_mut().zip(row.iter()) {
        *number = number.wrapping_add(value.wrapping_mul(factor));
    }
}

/// Makes numbers so many that are 0.
pub fn make_zeros(numbers: &mut Vec<i64>, count: usize) -> Result<(), AllocError> {
    numbers.clear();
    numbers.resize(count, 0)
}

/// Lists the numbers that don't count as 0, with their places; the others become 0.
pub fn list_numbers(numbers: &mut [i64], list: &mut Vec<(u32, i64)>) -> Result<(), AllocError> {
    list.clear();
    let mut place = 0u32;
    for number in numbers.iter_mut() {
        if is_nothing(*number) {
            *number = 0;
        } else {
            list.push((place, *number))?;
        }
        place = place.wrapping_add(1);
    }
    Ok(())
}

/// The numbers that don't count as 0, with their places.
pub fn list_all(alloc: Global, numbers: &[i64]) -> Result<Vec<(u32, i64)>, AllocError> {
    let mut list = Vec::new(alloc);
    let mut place = 0u32;
    for number in numbers {
        if !is_nothing(*number) {
            list.push((place, *number))?;
        }
        place = place.wrapping_add(1);
    }
    Ok(list)
}

/// The sum of a row's numbers times those that are listed.
pub fn product_of(row: &[i64], list: &[(u32, i64)]) -> i64 {
    let mut sum = 0i128;
    for (place, number) in list {
        let value = row.get(*place as usize).copied().unwrap_or(0);
        if value != 0 {
            sum = sum.wrapping_add(i128::from(value).wrapping_mul(i128::from(*number)));
        }
    }
    i64::try_from(sum >> 36).unwrap_or(0)
}

/// The products of all rows with the numbers that are listed.
pub fn products(
    rows: &[Vec<i64>],
    list: &[(u32, i64)],
    numbers: &mut Vec<i64>,
) -> Result<(), AllocError> {
    numbers.clear();
    for row in rows {
        numbers.push(product_of(row, list))?;
    }
    Ok(())
}

/// Takes the listed numbers times a factor away from a row.
pub fn take_from(row: &mut [i64], list: &[(u32, i64)], factor: i64) {
    for (place, number) in list {
        if let Some(value) = row.get_mut(*place as usize) {
            *value = value.wrapping_sub(times(factor, *number));
        }
    }
}

/// Takes the listed numbers times a factor for each row away from all rows; how many numbers that were.
pub fn take_outer(rows: &mut [Vec<i64>], factors: &[i64], list: &[(u32, i64)]) -> u64 {
    let mut count = 0u64;
    for (row, factor) in rows.iter_mut().zip(factors.iter()) {
        if !is_nothing(*factor) {
            take_from(row, list, *factor);
            count = count.wrapping_add(list.len() as u64);
        }
    }
    count
}

/// Reads a column.
pub fn read_column(
    rows: &[Vec<i64>],
    place: u32,
    numbers: &mut Vec<i64>,
) -> Result<(), AllocError> {
    numbers.clear();
    for row in rows {
        numbers.push(row.get(place as usize).copied().unwrap_or(0))?;
    }
    Ok(())
}

/// Rows have no number.
pub fn clear_rows(rows: &mut [Vec<i64>]) {
    for row in rows.iter_mut() {
        row.clear();
    }
}

/// Makes rows so many, each of so many numbers; what is new is 0.
pub fn widen(
    alloc: Global,
    rows: &mut Vec<Vec<i64>>,
    count: usize,
    width: usize,
) -> Result<(), AllocError> {
    rows.truncate(count);
    for row in rows.iter_mut() {
        row.resize(width, 0)?;
    }
    for _ in rows.len()..count {
        rows.push(vec![in alloc; 0i64; width]?)?;
    }
    Ok(())
}

/// Writes a column where it was 0.
pub fn write_column(rows: &mut [Vec<i64>], place: usize, numbers: &[i64]) {
    for (row, number) in rows.iter_mut().zip(numbers.iter()) {
        if *number != 0
            && let Some(slot) = row.get_mut(place)
        {
            *slot = *number;
        }
    }
}

/// Takes a column out; the last one takes its place.
pub fn drop_column(rows: &mut [Vec<i64>], place: u32) {
    for row in rows.iter_mut() {
        if let Some(last) = row.pop()
            && let Some(value) = row.get_mut(place as usize)
        {
            *value = last;
        }
    }
}

/// Sets the number at a place.
pub fn set_at(numbers: &mut [i64], place: u32, number: i64) {
    if let Some(slot) = numbers.get_mut(place as usize) {
        *slot = number;
    }
}

/// Multiplies numbers by a factor.
pub fn scale_all(numbers: &mut [i64], factor: i64) {
    for number in numbers.iter_mut() {
        *number = times(*number, factor);
    }
}
