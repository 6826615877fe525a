//! Runs of `check`.

use crate::asserts::assert_same;
use crate::scenes::{file, tells};
use std::alloc::Global;
use sx_outside::{MemShelf, MemSink};
use tests_given::File;
use tests_given::extensions::{LET, LOUD, PAIR, QUAD, SHOW, TWICE};
use tests_given::languages::LAM;
use tests_runs::files::{append, join, put, put_files, put_under};
use tests_runs::run::ends;

/// Whether an extension of this text, which is called X, is refused so.
fn is_refused(alloc: Global, text: &[u8], told: &[u8]) -> bool {
    let mut shelf = MemShelf::new(alloc);
    let mut out = MemSink::new(alloc);
    let is = put_files(alloc, &[&LAM, &SHOW], &mut shelf)
        && put(alloc, "X.ext", &[text], &mut shelf)
        && ends(alloc, "check X", &mut shelf, &mut out, 1, told);
    drop(out);
    drop(shelf);
    is
}

#[test]
fn extensions_that_are_accepted(rt: HostRuntime) {
    let alloc = rt.alloc();
    let let_lines = b"T-Let: T-App T-Lam given 2 given 1\naccepted Let: 1 rules\n";
    let show_lines = b"T-ShowInt: T-Itoa given 1\nT-ShowStr: given 1\naccepted Show: 2 rules\n";
    let loud_lines = b"T-Loud: T-Cat T-Itoa given 1 T-Str\naccepted Loud: 1 rules\n";
    let quad_lines = b"T-Quad: T-Cat T-Cat given 1 given 1 T-Cat given 1 given 1\n\
        accepted Quad: 1 rules\n";
    let pair_line = b"accepted Pair: 0 rules\n";
    let hold = [
        tells(alloc, &[&LAM, &LET], "check Let", 0, let_lines),
        tells(alloc, &[&LAM, &SHOW], "check Show", 0, show_lines),
        tells(alloc, &[&LAM, &SHOW, &LOUD], "check Loud", 0, loud_lines),
        tells(alloc, &[&LAM, &PAIR], "check Pair", 0, pair_line),
        tells(alloc, &[&LAM, &LET], "check --tries=23 Let", 0, let_lines),
        tells(
            alloc,
            &[&LAM, &TWICE, &QUAD],
            "check --nodes=7 Quad",
            0,
            quad_lines,
        ),
    ];
    assert_same(&rt, &hold, &[true; 6]);
}

#[test]
fn extensions_that_pass_a_budget(rt: HostRuntime) {
    let alloc = rt.alloc();
    let tries = b"soundx: Let.ext: rule T-Let: more than 5 tries\n";
    let nodes = b"soundx: Quad.ext: rule T-Quad: rewriting needs more than 6 nodes\n";
    let hold = [
        tells(alloc, &[&LAM, &LET], "check --tries=5 Let", 6, tries),
        tells(
            alloc,
            &[&LAM, &TWICE, &QUAD],
            "check --nodes=6 Quad",
            6,
            nodes,
        ),
    ];
    assert_same(&rt, &hold, &[true; 2]);
}

/// An extension whose rule has a body of another type.
pub const UNSOUND: File = File {
    name: "X.ext",
    text: br#"extension X
language Lam
prod x Exp 90 : "x"
rule T-X
---
~C |- x : Str
to 0
end
"#,
};

#[test]
fn rules_that_are_not_sound(rt: HostRuntime) {
    let alloc = rt.alloc();
    // of the second part the premise is in another environment
    let loose = br#"extension X
language Lam
prod x Exp 10 : "x" id "=" Exp "in" Exp
rule T-X
~C |- ~e1 : ~T1
~C |- ~e2 : ~T2
---
~C |- x ~x = ~e1 in ~e2 : ~T2
to ( \ ~x : ~T1 . ~e2 ) ~e1
end
"#;
    // a rule of the extension before wants another type
    let shown = br#"extension X
language Lam
use Show
prod x Exp 50 : "x" Exp@51
rule T-X
~C |- ~e : ~T
---
~C |- x ~e : Str
to show ~e
end
"#;
    let hold = [
        is_refused(
            alloc,
            loose,
            b"soundx: X.ext: rule T-X: no rule concludes ~C , ~x : ~T1 |- ~e2 : _\n",
        ),
        is_refused(
            alloc,
            UNSOUND.text,
            b"soundx: X.ext: rule T-X: ~C |- 0 : Int is not the stated conclusion\n",
        ),
        is_refused(
            alloc,
            shown,
            b"soundx: X.ext: rule T-X: ~C |- ~e : ~T is not what premise 1 of T-ShowInt asks for\n",
        ),
    ];
    assert_same(&rt, &hold, &[true; 3]);
}

#[test]
fn rules_whose_bodies_are_refused(rt: HostRuntime) {
    let alloc = rt.alloc();
    let none = br#"extension X
language Lam
prod x Exp 90 : "x"
rule T-X
---
~C |- x : Int
end
"#;
    let some = br#"extension X
language Lam
rule L-X
---
~C , ~x : ~T @ ~x : ~T
to 0
end
"#;
    let own = br#"extension X
language Lam
prod x Exp 50 : "x" Exp@51
rule T-X
~C |- ~e : Int
---
~C |- x ~e : Int
to x ~e
end
"#;
    let unbound = br#"extension X
language Lam
prod x Exp 90 : "x"
rule T-X
---
~C |- x : Int
to ~e
end
"#;
    let hold = [
        is_refused(alloc, none, b"soundx: X.ext: rule T-X: no body\n"),
        is_refused(
            alloc,
            some,
            b"soundx: X.ext: rule L-X: body without a subject\n",
        ),
        is_refused(
            alloc,
            own,
            b"soundx: X.ext: rule T-X: body uses extended syntax\n",
        ),
        is_refused(
            alloc,
            unbound,
            b"soundx: X.ext: rule T-X: ~e is not bound\n",
        ),
    ];
    assert_same(&rt, &hold, &[true; 4]);
}

#[test]
fn plain_bodies_that_are_refused(rt: HostRuntime) {
    let alloc = rt.alloc();
    let drops = b"extension X\nlanguage Lam\nprod q Ty 50 : \"Q\" Ty@90\nplain q T\nInt\n";
    let twice = b"extension X\nlanguage Lam\nprod q Ty 90 : \"Q\"\nplain q\nInt\nplain q\nStr\n";
    let later = b"extension X\nlanguage Lam\nprod q Ty 90 : \"Q\"\nprod r Ty 90 : \"R\"\n\
        plain q\nR\nplain r\nInt\n";
    let none = b"extension X\nlanguage Lam\nprod q Ty 90 : \"Q\"\n";
    let other = b"extension X\nlanguage Lam\nprod q Ty 90 : \"Q\"\nplain q\n~T\n";
    let hold = [
        is_refused(alloc, drops, b"soundx: X.ext: plain q: ~T is not used\n"),
        is_refused(alloc, twice, b"soundx: X.ext: plain q stands twice\n"),
        is_refused(alloc, later, b"soundx: X.ext: plain q: uses r\n"),
        is_refused(alloc, none, b"soundx: X.ext: production q: no plain body\n"),
        is_refused(alloc, other, b"soundx: X.ext: line 5: variable\n"),
    ];
    assert_same(&rt, &hold, &[true; 5]);
}

#[test]
fn extension_files_that_are_refused(rt: HostRuntime) {
    let alloc = rt.alloc();
    let head = b"soundx: X.ext: line 3: head\n";
    let cut = b"extension X\nlanguage Lam\nrule T-X\n---\n";
    let stem = b"extension X\nlanguage Lam\nvar e : Exp\n";
    let label = b"extension X\nlanguage Lam\nprod list Ty 90 : \"L\"\n";
    let rule = b"extension X\nlanguage Lam\nrule T-Num\n---\n~C |- ~n : Int\nto ~n\nend\n";
    let line = b"extension X\nlanguage Lam\nrule T-X\n---\n~C |- 1 :\nto 1\nend\n";
    let cycle = b"extension X\nlanguage Lam\nuse X\n";
    let absent = b"extension X\nlanguage Lam\nuse Y\n";
    let other = b"extension X\nlanguage Lim\n";
    let hold = [
        is_refused(alloc, b"extension X\n\nprod x Exp 90 : \"x\"\n", head),
        is_refused(alloc, cut, b"soundx: X.ext: line 3: unfinished\n"),
        is_refused(alloc, stem, b"soundx: X.ext: line 3: shape\n"),
        is_refused(alloc, label, b"soundx: X.ext: label list stands twice\n"),
        is_refused(alloc, rule, b"soundx: X.ext: rule T-Num stands twice\n"),
        is_refused(
            alloc,
            line,
            b"soundx: X.ext: line 5 column 10: no reading\n",
        ),
        is_refused(alloc, cycle, b"soundx: X.ext: cycle X X\n"),
        is_refused(alloc, absent, b"soundx: Y.ext: absent\n"),
        is_refused(alloc, other, b"soundx: Lim.lang: absent\n"),
    ];
    assert_same(&rt, &hold, &[true; 9]);
}

#[test]
fn an_extension_of_another_language(rt: HostRuntime) {
    let alloc = rt.alloc();
    let other = file("Y.ext", b"extension Y\nlanguage Lim\n");
    let user = file("X.ext", b"extension X\nlanguage Lam\nuse Y\n");
    let told = b"soundx: Y.ext: written for language Lim\n";
    let is = tells(alloc, &[&LAM, &other, &user], "check X", 1, told);
    assert!(rt; is);
}

/// Sixteen letters.
const LETTERS: &[u8] = b"abcdefghijklmnop";

/// Puts an extension that adds nothing, whose name has three letters, and appends a line that uses
/// it; whether memory was there for that.
fn put_empty(alloc: Global, name: [u8; 3], uses: &mut Vec<u8>, shelf: &mut MemShelf) -> bool {
    let name = name.as_slice();
    let mut file = Vec::new(alloc);
    let is = join(&[name, b".ext".as_slice()], &mut file)
        && put_under(
            alloc,
            file.as_slice(),
            &[
                b"extension ".as_slice(),
                name,
                b"\nlanguage Lam\n".as_slice(),
            ],
            shelf,
        )
        && join(&[b"use ".as_slice(), name, b"\n".as_slice()], uses);
    drop(file);
    is
}

/// So with each of 256 names.
fn put_empties(alloc: Global, uses: &mut Vec<u8>, shelf: &mut MemShelf) -> bool {
    for first in LETTERS {
        for second in LETTERS {
            if !put_empty(alloc, [b'E', *first, *second], uses, shelf) {
                return false;
            }
        }
    }
    true
}

/// Puts an extension with these lines after its header; whether memory was there for that.
fn put_user(alloc: Global, uses: &[u8], shelf: &mut MemShelf) -> bool {
    let head = b"extension X\nlanguage Lam\n".as_slice();
    put(alloc, "X.ext", &[head, uses], shelf)
}

#[test]
fn more_than_256_files(rt: HostRuntime) {
    let alloc = rt.alloc();
    let mut shelf = MemShelf::new(alloc);
    let mut out = MemSink::new(alloc);
    let mut uses = Vec::new(alloc);
    let told = b"soundx: X.ext: more than 256 files\n";
    let is = put_files(alloc, &[&LAM], &mut shelf)
        && put_empties(alloc, &mut uses, &mut shelf)
        && put_user(alloc, uses.as_slice(), &mut shelf)
        && ends(alloc, "check X", &mut shelf, &mut out, 1, told);
    drop(uses);
    drop(out);
    drop(shelf);
    assert!(rt; is);
}

/// A text whose middle stands sixty times.
struct Repeated {
    head: &'static [u8],
    middle: &'static [u8],
    end: &'static [u8],
}

/// A rule for texts, whose certificate is sixty deep.
const DEEP: Repeated = Repeated {
    head: br#"extension A
language Lam
prod a Exp 90 : "a" Exp@90
rule T-A
~C |- ~e : Str
---
~C |- a ~e : Str
to ~e"#,
    middle: br#" ++ "!""#,
    end: b"\nend\n",
};

/// One whose body is sixty of these deep.
const DEEPER: Repeated = Repeated {
    head: br#"extension B
language Lam
use A
prod b Exp 90 : "b" Exp@90
rule T-B
~C |- ~e : Str
---
~C |- b ~e : Str
to"#,
    middle: b" a",
    end: b" ~e\nend\n",
};

/// Puts the text under the name.
fn put_repeated(alloc: Global, name: &str, text: &Repeated, shelf: &mut MemShelf) -> bool {
    let mut bytes = Vec::new(alloc);
    for _ in 0..60 {
        if !append(text.middle, &mut bytes) {
            drop(bytes);
            return false;
        }
    }
    let is = put(alloc, name, &[text.head, bytes.as_slice(), text.end], shelf);
    drop(bytes);
    is
}

#[test]
fn a_rewritten_derivation_that_is_too_deep(rt: HostRuntime) {
    let alloc = rt.alloc();
    let mut shelf = MemShelf::new(alloc);
    let mut out = MemSink::new(alloc);
    let told = b"soundx: B.ext: rule T-B: rewritten derivation deeper than 3000\n";
    let is = put_files(alloc, &[&LAM], &mut shelf)
        && put_repeated(alloc, "A.ext", &DEEP, &mut shelf)
        && put_repeated(alloc, "B.ext", &DEEPER, &mut shelf)
        && ends(alloc, "check B", &mut shelf, &mut out, 6, told);
    drop(out);
    drop(shelf);
    assert!(rt; is);
}
