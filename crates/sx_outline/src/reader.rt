//! What has been read of a language file or of an extension file.

ghost use Rattle.sx_outline.specs.Reading.{IsNewReader, IsReaderAfter};

use crate::main_form::MainForm;
use crate::read_lines::ReadLines;
use crate::stage::Stage;
use std::alloc::Global;

/// Where the reading stands, how many forms and stems were declared, the main form of the main
/// line, if there was one, and the plain pairs and rules that were read.
#[derive(Drop)]
pub(crate) struct Reader {
    pub stage: Stage,
    pub forms: usize,
    pub vars: usize,
    pub main: Option<MainForm>,
    pub read: ReadLines,
}

impl Reader {
    /// The reader before the first line of a language file. It takes no memory.
    pub(crate) fn new(alloc: Global) -> Reader
        ensures { IsNewReader result }
    {
        Reader {
            stage: Stage::Start,
            forms: 0,
            vars: 0,
            main: None,
            read: ReadLines {
                plains: Vec::new(alloc),
                rules: Vec::new(alloc),
            },
        }
    }

    /// The reader after the header of an extension file whose language has so many stems. It takes
    /// no memory.
    pub(crate) fn after_header(alloc: Global, vars: usize) -> Reader
        ensures { IsReaderAfter vars result }
    {
        Reader {
            stage: Stage::Declarations,
            forms: 0,
            vars,
            main: None,
            read: ReadLines {
                plains: Vec::new(alloc),
                rules: Vec::new(alloc),
            },
        }
    }
}
