//! What is proved of walks through files.

ghost use Rattle.sx_walking.specs.Laws.{WalksAgree, ThoseComeFirst, RootIsLast, FewAreReached};

use crate::walked_kind::WalkedKind;

/// Where reading a file has one result by its name, read faults aside, the walk has one, but for
/// read faults and out of memory: the same files in the same order, or stops that give the same
/// status and the same line.
pub fn walks_agree<K: WalkedKind>()
    ensures { (k : K) → WalksAgree (K.kind k) }
{}

/// Where each file has the name under which it is read, each file that is reached stands once and
/// after all that it stands on, and was read from its name; and the roots are among them.
pub fn those_come_first<K: WalkedKind>()
    ensures { (k : K) → ThoseComeFirst (K.kind k) }
{}

/// Of the files that are reached from one root, the root comes last.
pub fn root_is_last<K: WalkedKind>()
    ensures { (k : K) → RootIsLast (K.kind k) }
{}

/// At most 256 files are reached.
pub fn few_are_reached<K: WalkedKind>()
    ensures { (k : K) → FewAreReached (K.kind k) }
{}
