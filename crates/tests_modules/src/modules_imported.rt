//! Runs of `build` on modules that import others.

use crate::asserts::assert_same;
use crate::scenes::{Turn, file, plays};
use tests_given::File;
use tests_given::extensions::{FOR, LET};
use tests_given::languages::LAM;

/// A run of `build` that ends so.
fn build(code: u8, told: &'static [u8]) -> Turn {
    Turn {
        line: "build Main",
        code,
        told,
    }
}

/// A module of one number.
pub const B: File = File {
    name: "B.mod",
    text: b"module B\nlanguage Lam\n---\n1\n",
};

/// A module that imports it.
pub const A: File = File {
    name: "A.mod",
    text: b"module A\nlanguage Lam\nimport B\n---\n\\ n : Int . B\n",
};

/// A module that imports both.
pub const MAIN: File = File {
    name: "Main.mod",
    text: b"module Main\nlanguage Lam\nimport A\nimport B\n---\nA B\n",
};

#[test]
fn modules_are_built_after_their_imports(rt: HostRuntime) {
    let alloc = rt.alloc();
    let f = file("f.mod", b"module f\nlanguage Lam\n---\n\\ n : Int . n\n");
    let xs = file("xs.mod", b"module xs\nlanguage Lam\n---\ncons 1 nil Int\n");
    let loops = file(
        "Main.mod",
        b"module Main\nlanguage Lam\nuse For\nimport f\nimport xs\n---\nfor x in xs yield f x\n",
    );
    let nested = file(
        "Main.mod",
        b"module Main\nlanguage Lam\nuse Let\nuse For\nimport xs\n---\n\
            for x in xs yield let y = x in for z in xs yield y\n",
    );
    let three = build(
        0,
        b"built B: 1 nodes\nbuilt A: 4 nodes\nbuilt Main: 6 nodes\n",
    );
    let looped = build(
        0,
        b"built f: 3 nodes\nbuilt xs: 3 nodes\nbuilt Main: 11 nodes\n",
    );
    let inner = build(0, b"built xs: 3 nodes\nbuilt Main: 17 nodes\n");
    let hold = [
        plays(alloc, &[&LAM, &B, &A, &MAIN], &[three]),
        plays(alloc, &[&LAM, &FOR, &f, &xs, &loops], &[looped]),
        plays(alloc, &[&LAM, &LET, &FOR, &xs, &nested], &[inner]),
    ];
    assert_same(&rt, &hold, &[true; 3]);
}

#[test]
fn closures_that_are_refused(rt: HostRuntime) {
    let alloc = rt.alloc();
    let back = file("B.mod", b"module B\nlanguage Lam\nimport Main\n---\n1\n");
    let other = file("B.mod", b"module B\nlanguage Other\n---\n1\n");
    let cycle = build(1, b"soundx: Main.mod: cycle Main A B Main\n");
    let absent = build(1, b"soundx: B.mod: absent\n");
    let differs = build(1, b"soundx: B.mod: language Other differs\n");
    let hold = [
        plays(alloc, &[&LAM, &back, &A, &MAIN], &[cycle]),
        plays(alloc, &[&LAM, &A, &MAIN], &[absent]),
        plays(alloc, &[&LAM, &other, &A, &MAIN], &[differs]),
    ];
    assert_same(&rt, &hold, &[true; 3]);
}

#[test]
fn an_import_with_the_name_of_a_literal(rt: HostRuntime) {
    let map = file("map.mod", b"module map\nlanguage Lam\n---\n1\n");
    let main = file(
        "Main.mod",
        b"module Main\nlanguage Lam\nimport map\n---\n1\n",
    );
    let bad = build(1, b"soundx: Main.mod: line 3: bad header\n");
    assert!(rt; plays(rt.alloc(), &[&LAM, &map, &main], &[bad]));
}

#[test]
fn what_is_written_is_compiled_and_verified_alike(rt: HostRuntime) {
    let three = build(
        0,
        b"built B: 1 nodes\nbuilt A: 4 nodes\nbuilt Main: 6 nodes\n",
    );
    let again = Turn {
        line: "compile Main",
        code: 0,
        told: b"built Main: 6 nodes\n",
    };
    let verified = Turn {
        line: "verify Main",
        code: 0,
        told: b"verified Main: 6 nodes\n",
    };
    let files = [&LAM, &B, &A, &MAIN];
    assert!(rt; plays(rt.alloc(), &files, &[three, verified, again, verified]));
}
