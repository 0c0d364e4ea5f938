//! Items of a text, one after another.

use pesp_cert_items::{ItemFault, Items};
use pesp_part_tests::Case;
use pesp_stream::{Counted, Source};

/// How many items come before the end or a fault, and the fault.
fn count_items<S: Source>(items: &mut Items<S>) -> (u32, Option<ItemFault>) {
    for count in 0..100 {
        match items.next() {
            Ok(Some(_)) => {}
            Ok(None) => return (count, None),
            Err(fault) => return (count, Some(fault)),
        }
    }
    (100, None)
}

/// Tells how many items come, and what comes behind them.
fn tell_items<S: Source>(items: &mut Items<S>, told: &mut String) -> Option<()> {
    let (count, fault) = count_items(items);
    write!(told, " {count},").ok()?;
    match fault {
        None => told.push_str(" end").ok(),
        Some(ItemFault::Read) => told.push_str(" Read").ok(),
        Some(ItemFault::Text(refusal)) => write!(told, " {refusal:?}").ok(),
    }
}

/// Tells what comes of the items twice.
fn tell_twice<S: Source>(items: &mut Items<S>, told: &mut String) -> Option<()> {
    tell_items(items, told)?;
    told.push_str(", then").ok()?;
    tell_items(items, told)
}

/// Tells how many items the input has, and what comes behind them; and again.
pub fn ask_items(case: Case<'_>, told: &mut String) -> Option<()> {
    let text = case.text("input")?;
    let mut items = Items::new(case.alloc, Counted::new(text.as_slice()));
    let done = tell_twice(&mut items, told);
    drop(items);
    done
}
