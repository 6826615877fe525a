//! Runs with auditors that the words name.

use crate::asserts::assert_same;
use crate::scenes::{ending, plays};
use tests_given::File;
use tests_given::extensions::LET;
use tests_given::languages::LAM;

/// A module with a name for a function, which it calls.
const CALLED: File = File {
    name: "Main.mod",
    text: b"module Main\nlanguage Lam\nuse Let\n---\n( let f = \\ y : Int . y in f ) 2\n",
};

/// A module with a name for a number.
const NAMED: File = File {
    name: "Main.mod",
    text: b"module Main\nlanguage Lam\nuse Let\n---\nlet x = 1 in x\n",
};

#[test]
fn what_auditors_say(rt: HostRuntime) {
    let alloc = rt.alloc();
    let tally = ending(
        "build --audit=tally:T-App,T-Lam Main",
        0,
        b"built Main: 9 nodes\ntally T-App 2 T-Lam 2\n",
    );
    let three = ending(
        "compile --audit=tally:T-Num --audit=depth:9 --audit=deny:T-Map Main",
        0,
        b"built Main: 5 nodes\ndeny T-Map\ndepth 4 of 9\ntally T-Num 1\n",
    );
    let hold = [
        plays(alloc, &[&LAM, &LET, &CALLED], &[tally]),
        plays(alloc, &[&LAM, &LET, &NAMED], &[three]),
    ];
    assert_same(&rt, &hold, &[true; 2]);
}

#[test]
fn what_auditors_object_to(rt: HostRuntime) {
    let alloc = rt.alloc();
    let leaf = ending(
        "build --audit=deny:T-Num Main",
        1,
        b"soundx: Main.mod: deny objects to node 5, T-Num\n",
    );
    let deep = ending(
        "compile --audit=depth:3 Main",
        1,
        b"soundx: Main.mod: depth objects to node 4, L-Here\n",
    );
    let many = ending(
        "build --audit=nodes:4 Main",
        1,
        b"soundx: Main.mod: nodes objects to node 5, T-Num\n",
    );
    let unbuilt = ending("verify Main", 1, b"soundx: Main.int: absent\n");
    let turns = [leaf, deep, many, unbuilt];
    assert!(rt; plays(alloc, &[&LAM, &LET, &NAMED], &turns));
}
