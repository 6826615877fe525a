//! The order of modules, and why there is none.

use crate::asserts::assert_same;
use std::alloc::{AllocError, Global};
use sx_imports::{Order, OrderError};
use sx_term::{NoMemory, Text};

/// Adds the names as texts.
fn put_texts(alloc: Global, texts: &mut Vec<Text>, names: &[&str]) -> Result<(), NoMemory> {
    for name in names {
        texts.push(Text::of_str(alloc, name)?)?;
    }
    Ok(())
}

/// Adds a module with what it imports, and answers whether it was added.
fn add(alloc: Global, order: &mut Order, name: &str, imports: &[&str]) -> bool {
    let mut texts = Vec::new(alloc);
    match (
        Text::of_str(alloc, name),
        put_texts(alloc, &mut texts, imports),
    ) {
        (Ok(name), Ok(())) => order.add(name, texts).is_ok(),
        (name, _) => {
            drop(name);
            drop(texts);
            false
        }
    }
}

/// Adds the word, and each name after a blank.
fn list(words: &mut String, word: &str, names: &[Text]) -> Result<(), AllocError> {
    words.push_str(word)?;
    for name in names {
        words.push(' ')?;
        words.push_str(name.as_str())?;
    }
    Ok(())
}

/// Tells the modules that are reached from the root in order, or why they have no order.
fn tell(alloc: Global, order: &Order, root: &Text, words: &mut String) -> Result<(), AllocError> {
    let found = order.order(alloc, root);
    let told = match &found {
        Ok(names) => list(words, "order", names),
        Err(OrderError::Missing(name)) => list(words, "missing", std::slice::from_ref(name)),
        Err(OrderError::Cycle(names)) => list(words, "cycle", names),
        Err(_) => list(words, "other", &[]),
    };
    drop(found);
    told
}

/// Whether these words tell that of the root.
fn is_told(alloc: Global, order: &Order, root: &str, wanted: &str) -> bool {
    match Text::of_str(alloc, root) {
        Ok(root) => {
            let mut words = String::new(alloc);
            let is = tell(alloc, order, &root, &mut words).is_ok() && words.as_str() == wanted;
            drop(words);
            drop(root);
            is
        }
        Err(_) => false,
    }
}

/// Whether modules are added of which `Main` imports `A` and `B`, and `A` imports `B`; whether
/// another one is added then; and whether these words tell what is reached from the root.
fn modules_are_told(alloc: Global, root: &str, again: &str, wanted: &str) -> [bool; 6] {
    let mut order = Order::new(alloc);
    let hold = [
        add(alloc, &mut order, "Main", &["A", "B"]),
        add(alloc, &mut order, "A", &["B"]),
        add(alloc, &mut order, "B", &[]),
        add(alloc, &mut order, "Other", &["Main"]),
        add(alloc, &mut order, again, &["C"]),
        is_told(alloc, &order, root, wanted),
    ];
    drop(order);
    hold
}

#[test]
fn imports_come_first(rt: HostRuntime) {
    let hold = modules_are_told(rt.alloc(), "Main", "Last", "order B A Main");
    assert_same(&rt, &hold, &[true; 6]);
}

#[test]
fn a_module_that_is_added_again(rt: HostRuntime) {
    let hold = modules_are_told(rt.alloc(), "A", "B", "order B A");
    assert_same(&rt, &hold, &[true, true, true, true, false, true]);
}

#[test]
fn a_module_that_is_missing(rt: HostRuntime) {
    let hold = modules_are_told(rt.alloc(), "Last", "Last", "missing C");
    assert_same(&rt, &hold, &[true; 6]);
}

/// Whether modules are added of which `B` and `D` import one another, and another one that is
/// missing; and whether these words tell what is reached from `A`.
fn cycle_is_told(alloc: Global, wanted: &str) -> [bool; 5] {
    let mut order = Order::new(alloc);
    let hold = [
        add(alloc, &mut order, "A", &["B"]),
        add(alloc, &mut order, "B", &["C", "D"]),
        add(alloc, &mut order, "C", &[]),
        add(alloc, &mut order, "D", &["B", "Z"]),
        is_told(alloc, &order, "A", wanted),
    ];
    drop(order);
    hold
}

#[test]
fn a_cycle_from_where_it_begins(rt: HostRuntime) {
    assert_same(&rt, &cycle_is_told(rt.alloc(), "cycle B D B"), &[true; 5]);
}
