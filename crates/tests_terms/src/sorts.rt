//! Terms that are well sorted, and others.

use crate::asserts::assert_same;
use crate::samples::term;
use std::alloc::Global;
use sx_term::{Con, LexKind, Shapes, Sort};

/// A plain constructor with one identifier; none where memory is lacking.
fn one_constructor(alloc: Global) -> Shapes {
    let mut cons = Vec::new(alloc);
    if let Ok(kids) = Vec::from_slice(alloc, &[Sort::Lex(LexKind::Id)]) {
        let sort = Sort::Plain(0);
        let _memory = cons.push(Con { sort, kids }).is_ok();
    }
    Shapes { cons }
}

/// Whether the term of the core text has the plain sort 0.
fn fits(alloc: Global, shapes: &Shapes, core: &str, vars: &[Sort]) -> Option<bool> {
    match term(alloc, core) {
        Some(term) => {
            let fits = shapes.fits(&term, vars, Sort::Plain(0));
            drop(term);
            Some(fits)
        }
        None => None,
    }
}

/// Whether a name, a variable of names and a number fit, by a copy of the shapes.
fn which_fit(alloc: Global, shapes: &Shapes) -> [Option<bool>; 3] {
    match shapes.copy(alloc) {
        Ok(copy) => {
            let fit = [
                fits(alloc, &copy, "(0 i1:x)", &[]),
                fits(alloc, &copy, "(0 ?0)", &[Sort::Lex(LexKind::Id)]),
                fits(alloc, &copy, "(0 n1:7)", &[]),
            ];
            drop(copy);
            fit
        }
        Err(_) => [None; 3],
    }
}

#[test]
fn terms_are_well_sorted(rt: HostRuntime) {
    let alloc = rt.alloc();
    let shapes = one_constructor(alloc);
    let fit = which_fit(alloc, &shapes);
    drop(shapes);
    assert_same(&rt, &fit, &[Some(true), Some(true), Some(false)]);
}
