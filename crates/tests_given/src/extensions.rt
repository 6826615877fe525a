//! Extension files of the language of functions.

use crate::file::File;
use sx_sample::LET_EXT;

/// A name for a value: a rule with two premises, whose body has a type that was found.
pub const LET: File = File {
    name: "Let.ext",
    text: LET_EXT,
};

/// Two rules for one production, which the types choose from.
pub const SHOW: File = File {
    name: "Show.ext",
    text: br#"extension Show
language Lam
prod show Exp 50 : "show" Exp@51
rule T-ShowInt
~C |- ~e : Int
---
~C |- show ~e : Str
to itoa ~e
end
rule T-ShowStr
~C |- ~e : Str
---
~C |- show ~e : Str
to ~e
end
"#,
};

/// A body with syntax of the extension before.
pub const LOUD: File = File {
    name: "Loud.ext",
    text: br#"extension Loud
language Lam
use Show
prod loud Exp 50 : "loud" Exp@51
rule T-Loud
~C |- ~e : Int
---
~C |- loud ~e : Str
to show ~e ++ "!"
end
"#,
};

/// A body that uses its part twice.
pub const TWICE: File = File {
    name: "Twice.ext",
    text: br#"extension Twice
language Lam
prod twice Exp 50 : "twice" Exp@51
rule T-Twice
~C |- ~e : Str
---
~C |- twice ~e : Str
to ~e ++ ~e
end
"#,
};

/// A body that uses the one before twice, one in the other.
pub const QUAD: File = File {
    name: "Quad.ext",
    text: br#"extension Quad
language Lam
use Twice
prod quad Exp 50 : "quad" Exp@51
rule T-Quad
~C |- ~e : Str
---
~C |- quad ~e : Str
to twice ( twice ~e )
end
"#,
};

/// A plain production, with what it stands for.
pub const PAIR: File = File {
    name: "Pair.ext",
    text: br#"extension Pair
language Lam
prod pair Ty 50 : "Pair" Ty@90 Ty@90
plain pair T1 T2
( ~T1 -> ~T2 -> Str ) -> Str
"#,
};

/// A loop over a list: its body binds a name of a type that was found.
pub const FOR: File = File {
    name: "For.ext",
    text: br#"extension For
language Lam
prod for Exp 10 : "for" id "in" Exp "yield" Exp
rule T-For
~C |- ~e1 : List ~T1
~C , ~x : ~T1 |- ~e2 : ~T2
---
~C |- for ~x in ~e1 yield ~e2 : List ~T2
to map ( \ ~x : ~T1 . ~e2 ) ~e1
end
"#,
};

/// One word for two values, which the types around it choose from.
pub const NULL: File = File {
    name: "Null.ext",
    text: br#"extension Null
language Lam
prod null Exp 90 : "null"
rule T-NullI
---
~C |- null : Int
to 0
end
rule T-NullS
---
~C |- null : Str
to ""
end
"#,
};

/// A part that is typed and then dropped.
pub const KEEP: File = File {
    name: "Keep.ext",
    text: br#"extension Keep
language Lam
prod keep Exp 50 : "keep" Exp@51 Exp@51
rule T-Keep
~C |- ~e1 : ~T1
~C |- ~e2 : ~T2
---
~C |- keep ~e1 ~e2 : ~T1
to ~e1
end
"#,
};

/// A rule that concludes its own premise.
pub const SAME: File = File {
    name: "Same.ext",
    text: br#"extension Same
language Lam
rule T-Same
~C |- ~e : ~T
---
~C |- ~e : ~T
to ~e
end
"#,
};

/// A word that could be a name.
pub const CAP: File = File {
    name: "Cap.ext",
    text: br#"extension Cap
language Lam
prod cap Exp 90 : "f"
rule T-Cap
---
~C |- f : Int
to 0
end
"#,
};

/// A sign behind a term, of the same level as the one of the next file.
pub const BANG: File = File {
    name: "Bang.ext",
    text: br#"extension Bang
language Lam
prod bang Exp 40 : Exp@40 "!"
rule T-Bang
~C |- ~e : ~T
---
~C |- ~e ! : ~T
to ~e
end
"#,
};

/// A sign before a term.
pub const QUEST: File = File {
    name: "Quest.ext",
    text: br#"extension Quest
language Lam
prod quest Exp 40 : "?" Exp@40
rule T-Quest
~C |- ~e : ~T
---
~C |- ? ~e : ~T
to ~e
end
"#,
};
