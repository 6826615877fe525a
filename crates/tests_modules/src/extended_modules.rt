//! Runs of `build` on modules that use extensions.

use crate::asserts::assert_same;
use crate::extensions_checked::UNSOUND;
use crate::scenes::{file, stops, tells};
use std::alloc::Global;
use sx_outside::{MemShelf, MemSink};
use tests_given::File;
use tests_given::extensions::{LET, LOUD, PAIR, QUAD, SHOW, TWICE};
use tests_given::languages::LAM;
use tests_runs::files::{holds, put_files};
use tests_runs::run::ends;

/// What a build leaves: its line, and the three texts.
#[derive(Clone, Copy)]
struct Texts {
    told: &'static [u8],
    base: &'static [u8],
    list: &'static [u8],
    interface: &'static [u8],
}

/// Whether the module of these files is built with this line, and leaves these three texts.
fn leaves(alloc: Global, files: &[&File], texts: &Texts) -> bool {
    let mut shelf = MemShelf::new(alloc);
    let mut out = MemSink::new(alloc);
    let is = put_files(alloc, files, &mut shelf)
        && ends(alloc, "build Main", &mut shelf, &mut out, 0, texts.told)
        && holds(alloc, "Main.base", texts.base, &shelf)
        && holds(alloc, "Main.der", texts.list, &shelf)
        && holds(alloc, "Main.int", texts.interface, &shelf);
    drop(out);
    drop(shelf);
    is
}

/// A module whose body has syntax of an extension that uses another.
const SHOUTED: File = File {
    name: "Main.mod",
    text: br#"module Main
language Lam
use Loud
---
\ n : Int . loud n
"#,
};

/// What it becomes.
const SHOUTED_TEXTS: Texts = Texts {
    told: b"built Main: 6 nodes\n",
    base: br#"module Main
language Lam
---
\ n : Int . itoa n ++ "!"
"#,
    list: b"sxder 1\nT-Lam\nT-Cat\nT-Itoa\nT-Var\nL-Here\nT-Str\n",
    interface: br#"sxint 2
module Main
language Lam 7b91b4c231b4c470e7267042b56b49215c3aa1b713b44fea3785399fa9212002
use Show 4ac2b5df8baa31d2ad3bec22312a0a4ca9b057f943e6a61729348161c4c09d1a
use Loud 9dbd0a356eafdd7bda8ce6399259b28af9caa49dab81226edabfa340ff493512
base 251c13b26d1a6e21102ecb3cdde846c1db6671792a085f68c5cbe234ec4b1449
---
Int -> Str
Int -> Str
"#,
};

/// A module whose signature has syntax of an extension.
const PAIRED: File = File {
    name: "Main.mod",
    text: br#"module Main
language Lam
use Pair
---
\ p : Pair Int Str . p
"#,
};

/// What it becomes.
const PAIRED_TEXTS: Texts = Texts {
    told: b"built Main: 3 nodes\n",
    base: br#"module Main
language Lam
---
\ p : ( Int -> Str -> Str ) -> Str . p
"#,
    list: b"sxder 1\nT-Lam\nT-Var\nL-Here\n",
    interface: br#"sxint 2
module Main
language Lam 7b91b4c231b4c470e7267042b56b49215c3aa1b713b44fea3785399fa9212002
use Pair 652a319be31ffcf1b7962b36a11bd3abaf27ce710bd6faeb0c570c5102949a7f
base 0c341a41a13bba3253519bde28c3b2f89faff8726fbd4fabb27d35c53c8a419b
---
( ( Int -> Str -> Str ) -> Str ) -> ( Int -> Str -> Str ) -> Str
Pair Int Str -> Pair Int Str
"#,
};

#[test]
fn the_files_of_modules_with_extensions(rt: HostRuntime) {
    let alloc = rt.alloc();
    let hold = [
        leaves(alloc, &[&LAM, &SHOW, &LOUD, &SHOUTED], &SHOUTED_TEXTS),
        leaves(alloc, &[&LAM, &PAIR, &PAIRED], &PAIRED_TEXTS),
    ];
    assert_same(&rt, &hold, &[true; 2]);
}

/// The module with this text.
fn main(text: &'static [u8]) -> File {
    file("Main.mod", text)
}

#[test]
fn modules_that_pass_a_budget(rt: HostRuntime) {
    let alloc = rt.alloc();
    let quad = main(
        b"module Main\nlanguage Lam\nuse Twice\n---\ntwice ( twice ( twice \"a\" ) )\n",
    );
    let files = [&LAM, &TWICE, &quad];
    let built = b"built Main: 15 nodes\n";
    let nodes = b"soundx: Main.mod: rewriting needs more than 14 nodes\n";
    let tries = b"soundx: Main.mod: more than 43 tries\n";
    let hold = [
        tells(alloc, &files, "build --nodes=15 Main", 0, built),
        tells(alloc, &files, "build --nodes=14 Main", 6, nodes),
        tells(alloc, &files, "build --tries=44 Main", 0, built),
        tells(alloc, &files, "build --tries=43 Main", 6, tries),
    ];
    assert_same(&rt, &hold, &[true; 4]);
}

#[test]
fn an_extension_in_use_that_passes_a_budget(rt: HostRuntime) {
    let module = main(b"module Main\nlanguage Lam\nuse Quad\n---\n\"a\"\n");
    let files = [&LAM, &TWICE, &QUAD, &module];
    let told = b"soundx: Quad.ext: rule T-Quad: rewriting needs more than 6 nodes\n";
    assert!(rt; tells(rt.alloc(), &files, "build --nodes=6 Main", 6, told));
}

#[test]
fn type_errors_in_the_notation_of_extensions(rt: HostRuntime) {
    let alloc = rt.alloc();
    let shown = main(
        b"module Main\nlanguage Lam\nuse Show\n---\n\\ x : Int . show ( \\ y : Int . y )\n",
    );
    let unbound = main(b"module Main\nlanguage Lam\nuse Let\n---\nlet x = 1 in y\n");
    let no_show = b"soundx: Main.mod: line 5 column 20: \
        [] , x : Int |- \\ y : Int . y : Int -> Int \
        is not what premise 1 of T-ShowInt asks for\n";
    let no_name = b"soundx: Main.mod: line 5 column 14: no rule concludes [] @ y : _\n";
    let hold = [
        stops(alloc, &[&LAM, &SHOW, &shown], 1, no_show),
        stops(alloc, &[&LAM, &LET, &unbound], 1, no_name),
    ];
    assert_same(&rt, &hold, &[true; 2]);
}

#[test]
fn uses_that_are_refused(rt: HostRuntime) {
    let alloc = rt.alloc();
    let x = file("X.ext", b"extension X\nlanguage Lam\nuse Y\n");
    let y = file("Y.ext", b"extension Y\nlanguage Lam\nuse X\n");
    let other = file("X.ext", b"extension X\nlanguage Other\n");
    let module = main(b"module Main\nlanguage Lam\nuse X\n---\n1\n");
    let cycle = b"soundx: Main.mod: cycle X Y X\n";
    let written = b"soundx: X.ext: written for language Other\n";
    let absent = b"soundx: X.ext: absent\n";
    let hold = [
        stops(alloc, &[&LAM, &x, &y, &module], 1, cycle),
        stops(alloc, &[&LAM, &other, &module], 1, written),
        stops(alloc, &[&LAM, &SHOW, &module], 1, absent),
    ];
    assert_same(&rt, &hold, &[true; 3]);
}

#[test]
fn an_extension_in_use_that_is_not_sound(rt: HostRuntime) {
    let module = main(b"module Main\nlanguage Lam\nuse X\n---\n1\n");
    let told = b"soundx: X.ext: rule T-X: ~C |- 0 : Int is not the stated conclusion\n";
    assert!(rt; stops(rt.alloc(), &[&LAM, &UNSOUND, &module], 1, told));
}

#[test]
fn an_import_that_is_absent(rt: HostRuntime) {
    let module = main(b"module Main\nlanguage Lam\nuse Let\nimport Other\n---\n1\n");
    let told = b"soundx: Other.mod: absent\n";
    assert!(rt; stops(rt.alloc(), &[&LAM, &LET, &module], 1, told));
}

/// A language with a rule that states a name.
const TAGS: File = File {
    name: "Tag.lang",
    text: br#"language Tag
sort Env plain
sort Ty plain
sort Exp typed
prod nilenv Env 90 : "[]"
prod bind Env 10 : Env@10 "," id ":" Ty
prod tag Ty 90 : "tag" id
prod one Exp 90 : "one"
var C : Env
form typing : in:Env "|-" sub:Exp ":" out:Ty
main typing nilenv bind
rule T-One
---
~C |- one : tag a
end
"#,
};

#[test]
fn a_name_that_is_a_literal_of_an_extension(rt: HostRuntime) {
    let a = file(
        "A.ext",
        b"extension A\nlanguage Tag\nprod a Exp 90 : \"a\"\n",
    );
    let module = main(b"module Main\nlanguage Tag\nuse A\n---\none\n");
    let told = b"soundx: Main.mod: stated signature has the literal a as a name\n";
    assert!(rt; tells(rt.alloc(), &[&TAGS, &a, &module], "build Main", 1, told));
}
