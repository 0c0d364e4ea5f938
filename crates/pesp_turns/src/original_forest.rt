//! What is left of the instance, over the forest that a certificate's cycles come from.

use pesp_problem::{Instance, Memory, Walk};
use pesp_reduce::{Reduced, reduce};
use std::alloc::Global;

/// For each row of the instance its number in what is left, 0 where it isn't left.
fn numbers_left(alloc: Global, instance: &Instance, reduced: &Reduced) -> Result<Vec<u32>, Memory> {
    let mut numbers = vec![in alloc; 0u32; instance.rows().len()]?;
    for (place, row) in reduced.network().rows().iter().enumerate() {
        let origin = (row.origin as usize).wrapping_sub(1);
        if origin < numbers.len() {
            numbers[origin] = (place as u32).wrapping_add(1);
        }
    }
    Ok(numbers)
}

/// The number of the first row of a cycle that is left, 0 where none is.
fn first_left(numbers: &[u32], cycle: &Walk) -> u32 {
    for s in cycle.rows() {
        let place = (s.row as usize).wrapping_sub(1);
        let number = numbers.get(place).copied().unwrap_or(0);
        if number > 0 {
            return number;
        }
    }
    0
}

/// Which of so many rows that are left are the first of a cycle.
fn firsts(
    alloc: Global,
    numbers: &[u32],
    table: &[Walk],
    rows: usize,
) -> Result<Vec<bool>, Memory> {
    let mut firsts = vec![in alloc; false; rows]?;
    for cycle in table {
        let place = (first_left(numbers, cycle) as usize).wrapping_sub(1);
        if place < firsts.len() {
            firsts[place] = true;
        }
    }
    Ok(firsts)
}

/// The numbers of the rows that are left and aren't the first of a cycle.
fn forest_of(
    alloc: Global,
    instance: &Instance,
    reduced: &Reduced,
    table: &[Walk],
) -> Result<Vec<u32>, Memory> {
    let numbers = numbers_left(alloc, instance, reduced)?;
    let firsts = firsts(alloc, &numbers, table, reduced.network().rows().len())?;
    let mut forest = Vec::new(alloc);
    let mut number = 0u32;
    for is_first in &firsts {
        number = number.saturating_add(1);
        if !*is_first {
            forest.push(number)?;
        }
    }
    Ok(forest)
}

/// What is left of an instance; where the cycles are lifted fundamental walks of a forest of it, which is so where `solve` made
/// them, it is over that forest.
pub(crate) fn replanted(
    alloc: Global,
    instance: &Instance,
    table: &[Walk],
) -> Result<Reduced, Memory> {
    let reduced = reduce(alloc, instance)?;
    match forest_of(alloc, instance, &reduced, table) {
        Ok(forest) => reduced.with_forest(alloc, &forest),
        Err(refused) => {
            drop(reduced);
            Err(refused)
        }
    }
}
