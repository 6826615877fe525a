//! Runs of `compile` against the interfaces of imports.

use crate::asserts::assert_same;
use crate::modules_imported::{A, B};
use crate::scenes::{Turn, ending, file, plays, plays_on};
use tests_given::File;
use tests_given::extensions::PAIR;
use tests_given::languages::LAM;

/// The runs that compile the one and then the other.
const COMPILED: Turn = Turn {
    line: "compile B",
    code: 0,
    told: b"built B: 1 nodes\n",
};

const COMPILED_AFTER: Turn = Turn {
    line: "compile A",
    code: 0,
    told: b"built A: 4 nodes\n",
};

#[test]
fn modules_are_compiled_one_by_one(rt: HostRuntime) {
    let alloc = rt.alloc();
    let absent = ending("compile A", 1, b"soundx: B.int: absent\n");
    let hold = [
        plays(alloc, &[&LAM, &B, &A], &[COMPILED, COMPILED_AFTER]),
        plays(alloc, &[&LAM, &B, &A], &[absent]),
    ];
    assert_same(&rt, &hold, &[true; 2]);
}

#[test]
fn interfaces_that_are_refused(rt: HostRuntime) {
    let alloc = rt.alloc();
    let nine = file("B.int", b"sxint 9\n");
    let empty = file("B.int", b"");
    let version = ending("compile A", 1, b"soundx: B.int: version 9\n");
    let header = ending("compile A", 1, b"soundx: B.int: line 1: bad header\n");
    let hold = [
        plays_on(alloc, &[&LAM, &B, &A], &[COMPILED], &nine, &[version]),
        plays_on(alloc, &[&LAM, &B, &A], &[COMPILED], &empty, &[header]),
    ];
    assert_same(&rt, &hold, &[true; 2]);
}

#[test]
fn a_module_that_imports_itself(rt: HostRuntime) {
    let own = file("A.mod", b"module A\nlanguage Lam\nimport A\n---\n1\n");
    let cycle = ending("compile A", 1, b"soundx: A.mod: cycle A A\n");
    assert!(rt; plays(rt.alloc(), &[&LAM, &own], &[cycle]));
}

/// A module whose signature is stated in the notation of an extension.
const P: File = File {
    name: "P.mod",
    text: b"module P\nlanguage Lam\nuse Pair\n---\n\\ p : Pair Int Str . p\n",
};

/// Its run.
const COMPILED_PAIR: Turn = Turn {
    line: "compile P",
    code: 0,
    told: b"built P: 3 nodes\n",
};

#[test]
fn signatures_are_seen_as_they_are_stated(rt: HostRuntime) {
    let alloc = rt.alloc();
    let with = file(
        "Main.mod",
        b"module Main\nlanguage Lam\nuse Pair\nimport P\n---\nP 1\n",
    );
    let without = file(
        "Main.mod",
        b"module Main\nlanguage Lam\nimport P\n---\nP 1\n",
    );
    let stated = ending(
        "compile Main",
        1,
        b"soundx: Main.mod: line 6 column 3: \
            [] , P : Pair Int Str -> Pair Int Str |- 1 : Int \
            is not what premise 2 of T-App asks for\n",
    );
    let plain = ending(
        "compile Main",
        1,
        b"soundx: Main.mod: line 5 column 3: \
            [] , P : ( ( Int -> Str -> Str ) -> Str ) -> ( Int -> Str -> Str ) -> Str |- 1 : Int \
            is not what premise 2 of T-App asks for\n",
    );
    let files = [&LAM, &PAIR, &P];
    let hold = [
        plays_on(alloc, &files, &[COMPILED_PAIR], &with, &[stated]),
        plays_on(alloc, &files, &[COMPILED_PAIR], &without, &[plain]),
    ];
    assert_same(&rt, &hold, &[true; 2]);
}
