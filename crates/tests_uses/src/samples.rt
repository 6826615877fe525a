//! A small language of sums, and extensions of it.

/// Numbers and their sums.
pub(crate) const SUMS: &[u8] = b"language Sums
sort Env plain
sort Ty plain
sort Exp typed \"(\" \")\"
prod nilenv Env 90 : \"[]\"
prod bind Env 10 : Env@10 \",\" id \":\" Ty
prod int Ty 90 : \"Int\"
prod num Exp 90 : num
prod plus Exp 50 : Exp@50 \"+\" Exp@51
var C : Env
var e : Exp
var n : num
form typing : in:Env \"|-\" sub:Exp \":\" out:Ty
main typing nilenv bind
rule T-Num
---
~C |- ~n : Int
end
rule T-Plus
~C |- ~e1 : Int
~C |- ~e2 : Int
---
~C |- ~e1 + ~e2 : Int
end
";

/// A body that uses its part twice.
pub(crate) const TWICE: &[u8] = b"extension Twice
language Sums
prod twice Exp 60 : \"twice\" Exp@61
rule T-Twice
~C |- ~e : Int
---
~C |- twice ~e : Int
to ~e + ~e
end
";

/// A body that uses another extension, and its part once more.
pub(crate) const THRICE: &[u8] = b"extension Thrice
language Sums
use Twice
prod thrice Exp 60 : \"thrice\" Exp@61
rule T-Thrice
~C |- ~e : Int
---
~C |- thrice ~e : Int
to twice ~e + ~e
end
";
