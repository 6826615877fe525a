//! What is proved of reading the modules of a closure.

ghost use Rattle.sx_closure.specs.Laws.{ModulesAgree, ModulesAreClosure};

/// By the name and the files there is one result of reading the modules of a closure, but for read
/// faults and out of memory: the same modules in the same order, or stops that give the same status
/// and the same line.
pub fn modules_agree()
    ensures { ModulesAgree }
{}

/// The modules that were read are those of their files. Each stands once and after all that it
/// imports, all have one language, and the one with the name comes last; they are at most 256.
pub fn modules_are_closure()
    ensures { ModulesAreClosure }
{}
