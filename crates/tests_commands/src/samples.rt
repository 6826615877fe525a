//! The files that the tests are about: core files and languages.

use crate::language::Language;
use sx_sample::LAM_LANG;
use tests_given::languages::{AMB as AMB_TEXT, LOOP as LOOP_TEXT, LOOP_RULES};

/// A core file whose goal has a derivation by one rule.
pub const ONE: &[u8] = br#"sxcore 1
sort Exp typed
sort Ty plain
con one Exp
con int Ty
form typing sub:Exp out:Ty
rule T-One
then typing (0) (1)
end
goal typing (0)
"#;

/// The head of a core file: the sorts, the constructors z, p, a and b, and the form.
pub const SIGNATURE: &[u8] = br#"sxcore 1
sort Exp typed
sort Ty plain
con z Exp
con p Exp Exp Exp
con a Ty
con b Ty
form f sub:Exp out:Ty
"#;

/// Rules after that head: z has the type a, or else b.
pub const LEAVES: &[u8] = br#"rule Z1
then f (0) (2)
end
rule Z2
then f (0) (3)
end
"#;

/// A rule after that head: a pair of terms with types has the type a.
pub const PAIR: &[u8] = br#"rule P Exp Exp Ty Ty
if f ?0 ?2
if f ?1 ?3
then f (1 ?0 ?1) (2)
end
"#;

/// A rule after that head, which asks for its own goal again.
pub const REPEAT: &[u8] = br#"rule L Exp Ty
if f ?0 ?1
then f ?0 ?1
end
"#;

/// A core file of lists of texts or numbers: `null` is either, an empty list says of which it is.
pub const LISTS: &[u8] = br#"sxcore 1
sort Exp typed
sort Ty plain
con null Exp
con nil Exp Ty
con cons Exp Exp Exp
con int Ty
con str Ty
con list Ty Ty
form f sub:Exp out:Ty
rule NullI
then f (0) (3)
end
rule NullS
then f (0) (4)
end
rule Nil Ty
then f (1 ?0) (5 ?0)
end
rule Cons Exp Exp Ty
if f ?0 ?2
if f ?1 (5 ?2)
then f (2 ?0 ?1) (5 ?2)
end
goal f (2 (0) (1 (4)))
"#;

/// A core file of two leaves and a pair; the goal is a pair of the first leaf and itself.
pub const PAIRS: &[u8] = br#"sxcore 1
sort Exp typed
sort Ty plain
con one Exp
con two Exp
con pair Exp Exp Exp
con int Ty
form typing sub:Exp out:Ty
rule T-One
then typing (0) (3)
end
rule T-Two
then typing (1) (3)
end
rule T-Pair Exp Exp Ty
if typing ?0 ?2
if typing ?1 ?2
then typing (2 ?0 ?1) ?2
end
goal typing (2 (0) (0))
"#;

/// A language of functions, lists and texts.
pub const LAM: Language = Language {
    file: "Lam.lang",
    header: b"module Main\nlanguage Lam\n---\n",
    text: [LAM_LANG, b""],
};

/// A language whose first rule asks for its own goal again.
pub const LOOP: Language = Language {
    file: "Loop.lang",
    header: b"module Main\nlanguage Loop\n---\n",
    text: [LOOP_TEXT, LOOP_RULES],
};

/// A language whose sums group both ways.
pub const AMB: Language = Language {
    file: "Amb.lang",
    header: b"module Main\nlanguage Amb\n---\n",
    text: [AMB_TEXT, b""],
};

/// The rule of numbers.
const T_NUM: &[u8] = br#"rule T-Num
---
~C |- ~n : Int
end
"#;

/// A language whose sums group to the left.
pub const LEFT: Language = Language {
    file: "Left.lang",
    header: b"module Main\nlanguage Left\n---\n",
    text: [
        br#"language Left
sort Env plain
sort Ty plain
sort Exp typed "(" ")"
prod nilenv Env 90 : "[]"
prod bind Env 10 : Env@10 "," id ":" Ty
prod int Ty 90 : "Int"
prod num Exp 90 : num
prod plus Exp 50 : Exp@50 "+" Exp@51
var C : Env
var T : Ty
var e : Exp
var n : num
form typing : in:Env "|-" sub:Exp ":" out:Ty
main typing nilenv bind
rule T-Plus
~C |- ~e1 : Int
~C |- ~e2 : Int
---
~C |- ~e1 + ~e2 : Int
end
"#,
        T_NUM,
    ],
};

/// A language whose last rule asks for its own goal again.
pub const LAST: Language = Language {
    file: "Last.lang",
    header: b"module Main\nlanguage Last\n---\n",
    text: [
        br#"language Last
sort Env plain
sort Ty plain
sort Exp typed
prod nilenv Env 90 : "[]"
prod bind Env 10 : Env@10 "," id ":" Ty
prod int Ty 90 : "Int"
prod num Exp 90 : num
var C : Env
var T : Ty
var e : Exp
var n : num
form typing : in:Env "|-" sub:Exp ":" out:Ty
main typing nilenv bind
rule T-Num
---
~C |- ~n : Int
end
rule T-Loop
~C |- ~e : ~T
---
~C |- ~e : ~T
end
"#,
        b"",
    ],
};

/// A language with a sort that derives itself.
pub const CYCLIC: Language = Language {
    file: "Lam.lang",
    header: b"module Main\nlanguage Lam\n---\n",
    text: [
        br#"language Lam
sort Env plain
sort Ty plain
sort Exp typed
prod nilenv Env 90 : "[]"
prod bind Env 10 : Env@10 "," id ":" Ty
prod int Ty 90 : "Int"
prod num Exp 90 : num
prod loop Exp 0 : Exp
var C : Env
var n : num
form typing : in:Env "|-" sub:Exp ":" out:Ty
main typing nilenv bind
"#,
        T_NUM,
    ],
};
