//! Runs of `verify` on modules.

use crate::asserts::assert_same;
use crate::scenes::{Turn, plays, plays_on};
use tests_given::File;
use tests_given::extensions::PAIR;
use tests_given::languages::LAM;

/// A module that binds one name twice.
const SHADOWED: File = File {
    name: "Main.mod",
    text: b"module Main\nlanguage Lam\n---\n\\ x : Int . \\ x : Str . x\n",
};

/// Its build.
const BUILT: Turn = Turn {
    line: "build Main",
    code: 0,
    told: b"built Main: 4 nodes\n",
};

/// A run of `verify` that ends so.
fn verify(code: u8, told: &'static [u8]) -> Turn {
    Turn {
        line: "verify Main",
        code,
        told,
    }
}

/// A list in the place of the one that was written.
fn list(text: &'static [u8]) -> File {
    File {
        name: "Main.der",
        text,
    }
}

#[test]
fn what_was_built_is_verified(rt: HostRuntime) {
    let alloc = rt.alloc();
    let pair = File {
        name: "Main.mod",
        text: b"module Main\nlanguage Lam\nuse Pair\n---\n\\ p : Pair Int Str . p\n",
    };
    let built = Turn {
        line: "build Main",
        code: 0,
        told: b"built Main: 3 nodes\n",
    };
    let four = verify(0, b"verified Main: 4 nodes\n");
    let three = verify(0, b"verified Main: 3 nodes\n");
    let hold = [
        plays(alloc, &[&LAM, &SHADOWED], &[BUILT, four]),
        plays(alloc, &[&LAM, &PAIR, &pair], &[built, three]),
    ];
    assert_same(&rt, &hold, &[true; 2]);
}

#[test]
fn lists_that_fit_no_derivation(rt: HostRuntime) {
    let alloc = rt.alloc();
    let files = [&LAM, &SHADOWED];
    let other = list(b"sxder 1\nT-Lam\nT-Lam\nT-Var\nL-There\nL-Here\n");
    let short = list(b"sxder 1\nT-Lam\nT-Lam\nT-Var\n");
    let long = list(b"sxder 1\nT-Lam\nT-Lam\nT-Var\nL-Here\nT-Num\n");
    let unknown = list(b"sxder 1\nT-Lam\nT-Lam\nT-Var\nT-Nosuch\n");
    let fits_not = verify(1, b"soundx: Main.der: entry 4 fits no derivation\n");
    let ends_early = verify(1, b"soundx: Main.der: list ends early\n");
    let left_over = verify(1, b"soundx: Main.der: entry 5 is left over\n");
    let bad = verify(1, b"soundx: Main.der: line 5: bad entry\n");
    let hold = [
        plays_on(alloc, &files, &[BUILT], &other, &[fits_not]),
        plays_on(alloc, &files, &[BUILT], &short, &[ends_early]),
        plays_on(alloc, &files, &[BUILT], &long, &[left_over]),
        plays_on(alloc, &files, &[BUILT], &unknown, &[bad]),
    ];
    assert_same(&rt, &hold, &[true; 4]);
}

#[test]
fn files_that_were_changed(rt: HostRuntime) {
    let alloc = rt.alloc();
    let files = [&LAM, &SHADOWED];
    let used = File {
        name: "Main.base",
        text: b"module Main\nlanguage Lam\nuse Let\n---\n1\n",
    };
    let imported = File {
        name: "Main.base",
        text: b"module Main\nlanguage Lam\nimport A\n---\n1\n",
    };
    let version = File {
        name: "Main.int",
        text: b"sxint 9\n",
    };
    let line = verify(1, b"soundx: Main.base: line 3: bad header\n");
    let nine = verify(1, b"soundx: Main.int: version 9\n");
    let hold = [
        plays_on(alloc, &files, &[BUILT], &used, &[line]),
        plays_on(alloc, &files, &[BUILT], &imported, &[line]),
        plays_on(alloc, &files, &[BUILT], &version, &[nine]),
    ];
    assert_same(&rt, &hold, &[true; 3]);
}

#[test]
fn modules_that_were_not_built(rt: HostRuntime) {
    let absent = verify(1, b"soundx: Main.int: absent\n");
    assert!(rt; plays(rt.alloc(), &[&LAM, &SHADOWED], &[absent]));
}
