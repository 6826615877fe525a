//! Languages, as files and as texts.

use crate::file::File;
use sx_sample::LAM_LANG;

/// The language of functions, lists and texts.
pub const LAM: File = File {
    name: "Lam.lang",
    text: LAM_LANG,
};

/// The declarations of a small language.
pub const LOOP: &[u8] = br#"language Loop
sort Env plain
sort Ty plain
sort Exp typed
prod nilenv Env 90 : "[]"
prod bind Env 10 : Env@10 "," id ":" Ty
prod int Ty 90 : "Int"
prod num Exp 90 : num
var C : Env
var T : Ty
var e : Exp
var n : num
form typing : in:Env "|-" sub:Exp ":" out:Ty
main typing nilenv bind
"#;

/// Its rules, of which one has its conclusion as its premise.
pub const LOOP_RULES: &[u8] = br#"rule T-Loop
~C |- ~e : ~T
---
~C |- ~e : ~T
end
rule T-Num
---
~C |- ~n : Int
end
"#;

/// A language with sums that can be read in two ways.
pub const AMB: &[u8] = br#"language Amb
sort Env plain
sort Ty plain
sort Exp typed "(" ")"
prod nilenv Env 90 : "[]"
prod bind Env 10 : Env@10 "," id ":" Ty
prod int Ty 90 : "Int"
prod num Exp 90 : num
prod plus Exp 50 : Exp "+" Exp
var C : Env
var T : Ty
var e : Exp
var n : num
form typing : in:Env "|-" sub:Exp ":" out:Ty
main typing nilenv bind
rule T-Plus
~C |- ~e1 : Int
~C |- ~e2 : Int
---
~C |- ~e1 + ~e2 : Int
end
rule T-Num
---
~C |- ~n : Int
end
"#;

/// The declarations of a language of sums, which are read from the left.
pub const SUMS: &[u8] = br#"language Sums
sort Env plain
sort Ty plain
sort Exp typed "(" ")"
prod nilenv Env 90 : "[]"
prod int Ty 90 : "Int"
prod num Exp 90 : num
prod plus Exp 50 : Exp@50 "+" Exp@51
prod bind Env 10 : Env@10 "," id ":" Ty
var C : Env
var T : Ty
var e : Exp
form typing : in:Env "|-" sub:Exp@51 ":" out:Ty
main typing nilenv bind
"#;

/// Its rules.
pub const SUMS_RULES: &[u8] = br#"var n : num
rule T-Num
---
~C |- ~n : Int
end
rule T-Plus
~C |- ~e1 : Int
~C |- ~e2 : Int
---
~C |- (~e1 + ~e2) : Int
end
"#;
