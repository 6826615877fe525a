//! Interfaces that the tests are about.

/// The interface of the module Main with the body `( \ x : Int . x ) 1` over that language.
pub const LAM_INTERFACE: &[u8] = br#"sxint 2
module Main
language Lam 7b91b4c231b4c470e7267042b56b49215c3aa1b713b44fea3785399fa9212002
base 8ccd0ff872caa77f469ffcdecb77427f3e532e619d21ff11f438a26c00d5de15
---
Int
Int
"#;

/// The interface of a module with one import, in version 1.
pub const FIRST_INTERFACE: &[u8] = br#"sxint 1
module M
language L ba7816bf8f01cfea414140de5dae2223b00361a396177a9cb410ff61f20015ad
base ba7816bf8f01cfea414140de5dae2223b00361a396177a9cb410ff61f20015ad
import I ba7816bf8f01cfea414140de5dae2223b00361a396177a9cb410ff61f20015ad
---
int -> int
"#;

/// The same interface in version 2.
pub const INTERFACE: &[u8] = br#"sxint 2
module M
language L ba7816bf8f01cfea414140de5dae2223b00361a396177a9cb410ff61f20015ad
base ba7816bf8f01cfea414140de5dae2223b00361a396177a9cb410ff61f20015ad
import I ba7816bf8f01cfea414140de5dae2223b00361a396177a9cb410ff61f20015ad
---
int -> int
int -> int
"#;

/// The interface of a module with two extensions and one import, in version 2.
pub const EXTENDED_INTERFACE: &[u8] = br#"sxint 2
module M
language L ba7816bf8f01cfea414140de5dae2223b00361a396177a9cb410ff61f20015ad
use X e3b0c44298fc1c149afbf4c8996fb92427ae41e4649b934ca495991b7852b855
use Y ba7816bf8f01cfea414140de5dae2223b00361a396177a9cb410ff61f20015ad
base ba7816bf8f01cfea414140de5dae2223b00361a396177a9cb410ff61f20015ad
import I ba7816bf8f01cfea414140de5dae2223b00361a396177a9cb410ff61f20015ad
---
int -> int
fn int int
"#;

/// The interface of the module Main with the body `\ x : Int . \ x : Str . x`.
pub const ARROWS_INTERFACE: &[u8] = br#"sxint 2
module Main
language Lam 7b91b4c231b4c470e7267042b56b49215c3aa1b713b44fea3785399fa9212002
base 3ca81650b8e3351eabdbd3fff694fdd5a16c1037ae2ae8412a9af9b57d28eb00
---
Int -> Str -> Str
Int -> Str -> Str
"#;
