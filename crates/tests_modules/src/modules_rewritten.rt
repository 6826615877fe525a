//! Runs of `build`: what modules that use extensions become.

use crate::asserts::assert_same;
use std::alloc::Global;
use sx_outside::{MemShelf, MemSink};
use tests_given::File;
use tests_given::extensions::{
    BANG, CAP, FOR, KEEP, LET, LOUD, NULL, PAIR, QUEST, SAME, SHOW, TWICE,
};
use tests_given::languages::LAM;
use tests_runs::files::{append, holds, holds_module, put, put_files};
use tests_runs::run::ends;

/// A module, by its `use` lines and its body, and what it becomes: the body of its base program,
/// its list, and the line that is told.
#[derive(Clone, Copy)]
struct Rewritten {
    uses: &'static [u8],
    body: &'static [u8],
    base: &'static [u8],
    list: &'static [u8],
    told: &'static [u8],
}

/// The header of a base program.
const HEADER: &[u8] = b"module Main\nlanguage Lam\n---\n";

/// Puts a module of the language of functions with these `use` lines and this body, and these
/// extensions.
fn put_main(
    alloc: Global,
    extensions: &[&File],
    uses: &[u8],
    body: &[u8],
    shelf: &mut MemShelf,
) -> bool {
    let header = b"module Main\nlanguage Lam\n";
    let parts = [header.as_slice(), uses, b"---\n", body, b"\n"];
    put_files(alloc, &[&LAM], shelf)
        && put_files(alloc, extensions, shelf)
        && put(alloc, "Main.mod", &parts, shelf)
}

/// Whether the module becomes what it is to become.
fn becomes(alloc: Global, extensions: &[&File], module: &Rewritten) -> bool {
    let mut shelf = MemShelf::new(alloc);
    let mut out = MemSink::new(alloc);
    let is = put_main(alloc, extensions, module.uses, module.body, &mut shelf)
        && ends(alloc, "build Main", &mut shelf, &mut out, 0, module.told)
        && holds_module(alloc, HEADER, module.base, &shelf)
        && holds(alloc, "Main.der", module.list, &shelf);
    drop(out);
    drop(shelf);
    is
}

/// Whether a build of a module with these `use` lines and this body ends so, with this line.
fn tells(
    alloc: Global,
    extensions: &[&File],
    uses: &[u8],
    body: &[u8],
    code: u8,
    told: &[u8],
) -> bool {
    let mut shelf = MemShelf::new(alloc);
    let mut out = MemSink::new(alloc);
    let is = put_main(alloc, extensions, uses, body, &mut shelf)
        && ends(alloc, "build Main", &mut shelf, &mut out, code, told);
    drop(out);
    drop(shelf);
    is
}

#[test]
fn names_for_values(rt: HostRuntime) {
    let alloc = rt.alloc();
    let one = Rewritten {
        uses: b"use Let\n",
        body: b"let x = 1 in x",
        base: b"( \\ x : Int . x ) 1",
        list: b"sxder 1\nT-App\nT-Lam\nT-Var\nL-Here\nT-Num\n",
        told: b"built Main: 5 nodes\n",
    };
    let function = Rewritten {
        uses: b"use Let\n",
        body: b"( let f = \\ y : Int . y in f ) 2",
        base: b"( \\ f : Int -> Int . f ) ( \\ y : Int . y ) 2",
        list: b"sxder 1\nT-App\nT-App\nT-Lam\nT-Var\nL-Here\nT-Lam\nT-Var\nL-Here\nT-Num\n",
        told: b"built Main: 9 nodes\n",
    };
    let hold = [
        becomes(alloc, &[&LET], &one),
        becomes(alloc, &[&LET], &function),
    ];
    assert_same(&rt, &hold, &[true; 2]);
}

#[test]
fn syntax_of_two_extensions(rt: HostRuntime) {
    let module = Rewritten {
        uses: b"use Let\nuse For\n",
        body: b"\\ xs : List Int . for x in xs yield let y = x in for z in xs yield y",
        base: b"\\ xs : List Int . \
            map ( \\ x : Int . ( \\ y : Int . map ( \\ z : Int . y ) xs ) x ) xs",
        list: b"sxder 1\nT-Lam\nT-Map\nT-Lam\nT-App\nT-Lam\nT-Map\nT-Lam\nT-Var\nL-There\nL-Here\n\
            T-Var\nL-There\nL-There\nL-Here\nT-Var\nL-Here\nT-Var\nL-Here\n",
        told: b"built Main: 18 nodes\n",
    };
    assert!(rt; becomes(rt.alloc(), &[&LET, &FOR], &module));
}

#[test]
fn rules_that_types_choose(rt: HostRuntime) {
    let alloc = rt.alloc();
    let shown = Rewritten {
        uses: b"use Show\n",
        body: b"show ( show 1 )",
        base: b"itoa 1",
        list: b"sxder 1\nT-Itoa\nT-Num\n",
        told: b"built Main: 2 nodes\n",
    };
    let null = Rewritten {
        uses: b"use Null\n",
        body: b"cons null nil Str",
        base: b"cons \"\" nil Str",
        list: b"sxder 1\nT-Cons\nT-Str\nT-Nil\n",
        told: b"built Main: 3 nodes\n",
    };
    let loud = Rewritten {
        uses: b"use Loud\n",
        body: b"loud 1",
        base: b"itoa 1 ++ \"!\"",
        list: b"sxder 1\nT-Cat\nT-Itoa\nT-Num\nT-Str\n",
        told: b"built Main: 4 nodes\n",
    };
    let hold = [
        becomes(alloc, &[&SHOW], &shown),
        becomes(alloc, &[&NULL], &null),
        becomes(alloc, &[&SHOW, &LOUD], &loud),
    ];
    assert_same(&rt, &hold, &[true; 3]);
}

#[test]
fn types_that_stand_for_others(rt: HostRuntime) {
    let module = Rewritten {
        uses: b"use Pair\n",
        body: b"\\ p : Pair Int Str . p",
        base: b"\\ p : ( Int -> Str -> Str ) -> Str . p",
        list: b"sxder 1\nT-Lam\nT-Var\nL-Here\n",
        told: b"built Main: 3 nodes\n",
    };
    assert!(rt; becomes(rt.alloc(), &[&PAIR], &module));
}

#[test]
fn rules_that_conclude_their_premise(rt: HostRuntime) {
    let alloc = rt.alloc();
    let same = Rewritten {
        uses: b"use Same\n",
        body: b"1",
        base: b"1",
        list: b"sxder 1\nT-Num\n",
        told: b"built Main: 1 nodes\n",
    };
    let deep = b"soundx: Main.mod: derivation deeper than 3000\n";
    let hold = [
        becomes(alloc, &[&SAME], &same),
        tells(alloc, &[&SAME], b"use Same\n", b"x", 6, deep),
    ];
    assert_same(&rt, &hold, &[true; 2]);
}

/// Appends `twice`, nested so often round a string, with brackets round each inner one.
fn nest(times: u32, body: &mut Vec<u8>) -> bool {
    for _ in 1..times {
        if !append(b"twice ( ", body) {
            return false;
        }
    }
    if !append(b"twice \"a\"", body) {
        return false;
    }
    for _ in 1..times {
        if !append(b" )", body) {
            return false;
        }
    }
    true
}

/// Whether a build of `twice` nested so often ends so, with this line.
fn nested(alloc: Global, times: u32, code: u8, told: &[u8]) -> bool {
    let mut body = Vec::new(alloc);
    let is = nest(times, &mut body) && tells(alloc, &[&TWICE], b"use Twice\n", &body, code, told);
    drop(body);
    is
}

#[test]
fn parts_that_are_copied(rt: HostRuntime) {
    let alloc = rt.alloc();
    let two = Rewritten {
        uses: b"use Twice\n",
        body: b"twice ( twice \"a\" )",
        base: b"\"a\" ++ \"a\" ++ ( \"a\" ++ \"a\" )",
        list: b"sxder 1\nT-Cat\nT-Cat\nT-Str\nT-Str\nT-Cat\nT-Str\nT-Str\n",
        told: b"built Main: 7 nodes\n",
    };
    let tokens = b"soundx: Main.mod: printed text has 12285 tokens, over 10000\n";
    let nodes = b"soundx: Main.mod: rewriting needs more than 1000000 nodes\n";
    let hold = [
        becomes(alloc, &[&TWICE], &two),
        nested(alloc, 11, 0, b"built Main: 4095 nodes\n"),
        nested(alloc, 12, 1, tokens),
        nested(alloc, 20, 6, nodes),
    ];
    assert_same(&rt, &hold, &[true; 4]);
}

/// The last two rules of the language of functions.
const LAST_RULES: &[u8] = br#"rule T-Cat
~C |- ~e1 : Str
~C |- ~e2 : Str
---
~C |- ~e1 ++ ~e2 : Str
end
rule T-Itoa
~C |- ~e : Int
---
~C |- itoa ~e : Str
end
"#;

/// A rule before these, which is tried first where a string stands on the left.
const STRING_FIRST: &[u8] = br#"rule T-CatS
~C |- ~e : Str
---
~C |- ~s ++ ~e : Str
end
"#;

/// Whether the module becomes this list over the language with that rule, with the rule of `twice`
/// as it was accepted.
fn has_list(alloc: Global, uses: &[u8], body: &[u8], list: &[u8], told: &[u8]) -> bool {
    let mut shelf = MemShelf::new(alloc);
    let mut out = MemSink::new(alloc);
    let head = match LAM.text.strip_suffix(LAST_RULES) {
        Some(head) => head,
        None => b"".as_slice(),
    };
    let language = [head, STRING_FIRST, LAST_RULES];
    let is = put_main(alloc, &[&TWICE], uses, body, &mut shelf)
        && put(alloc, LAM.name, &language, &mut shelf)
        && ends(alloc, "build Main", &mut shelf, &mut out, 0, told)
        && holds(alloc, "Main.der", list, &shelf);
    drop(out);
    drop(shelf);
    is
}

#[test]
fn lists_that_no_search_of_the_base_finds(rt: HostRuntime) {
    let alloc = rt.alloc();
    let certified = b"sxder 1\nT-Cat\nT-Str\nT-Str\n";
    let searched = b"sxder 1\nT-CatS\nT-Str\n";
    let three = b"built Main: 3 nodes\n";
    let two = b"built Main: 2 nodes\n";
    let hold = [
        has_list(alloc, b"use Twice\n", b"twice \"a\"", certified, three),
        has_list(alloc, b"", b"\"a\" ++ \"a\"", searched, two),
    ];
    assert_same(&rt, &hold, &[true; 2]);
}

/// Appends `keep 1` round a part that would be too big.
fn keep(body: &mut Vec<u8>) -> bool {
    append(b"keep 1 ( ", body) && nest(20, body) && append(b" )", body)
}

#[test]
fn parts_that_are_dropped(rt: HostRuntime) {
    let alloc = rt.alloc();
    let mut body = Vec::new(alloc);
    let uses = b"use Twice\nuse Keep\n";
    let told = b"built Main: 1 nodes\n";
    let is = keep(&mut body) && tells(alloc, &[&TWICE, &KEEP], uses, &body, 0, told);
    drop(body);
    assert!(rt; is);
}

#[test]
fn words_of_extensions(rt: HostRuntime) {
    let alloc = rt.alloc();
    let name = b"soundx: Main.mod: line 5 column 3: no reading\n";
    let two = b"soundx: Main.mod: two readings: \
        bang(quest(num(1))) and quest(bang(num(1)))\n";
    let both = [&BANG, &QUEST];
    let hold = [
        tells(alloc, &[&CAP], b"use Cap\n", b"\\ f : Int . f", 1, name),
        tells(alloc, &both, b"use Bang\nuse Quest\n", b"? 1 !", 1, two),
    ];
    assert_same(&rt, &hold, &[true; 2]);
}
