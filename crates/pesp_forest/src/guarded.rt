//! Reads and writes of lists that give up past the end.

/// The number at a place.
pub fn number(numbers: &[u32], place: u32) -> Option<u32> {
    numbers.get(place as usize).copied()
}

/// The amount at a place.
pub fn amount(amounts: &[i64], place: u32) -> Option<i64> {
    amounts.get(place as usize).copied()
}

/// Sets the number at a place.
pub fn set_number(numbers: &mut [u32], place: u32, number: u32) -> Option<()> {
    *numbers.get_mut(place as usize)? = number;
    Some(())
}

/// Sets the amount at a place.
pub fn set_amount(amounts: &mut [i64], place: u32, amount: i64) -> Option<()> {
    *amounts.get_mut(place as usize)? = amount;
    Some(())
}

/// Makes all numbers the same.
pub fn fill(numbers: &mut [u32], value: u32) {
    for number in numbers.iter_mut() {
        *number = value;
    }
}

/// Makes the numbers 0, 1, 2 and so on.
pub fn count_up(numbers: &mut [u32]) {
    let mut next: u32 = 0;
    for number in numbers.iter_mut() {
        *number = next;
        next = next.wrapping_add(1);
    }
}

/// Adds one to the number at a place.
pub fn count_one(numbers: &mut [u32], place: u32) -> Option<()> {
    let count = number(numbers, place)?;
    set_number(numbers, place, count.checked_add(1)?)
}
