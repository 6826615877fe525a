//! The stops of headers and interfaces that are refused.

ghost use Rattle.std.specs.Prelude.{◌≡◌, IfOk, Some};
ghost use Rattle.sx_headers.specs.HeaderStops as stops;

use std::alloc::Global;
use sx_interface::HeaderError;
use sx_steps::{Stop, refused, refused_at};
use sx_term::{NoMemory, Text};
use sx_words::{Defect, FileDefect, Position};

/// The refusal of a header for this line.
pub fn bad_line_of_header(alloc: Global, file: &Text, line: u32) -> Result<Stop, NoMemory>
    ensures { IfOk result (λ stop. stop ≡ stops.bad_header file.now line) }
{
    refused_at(
        alloc,
        file,
        Position::Line(line),
        Defect::File(FileDefect::Header),
    )
}

/// The refusal of bytes without a header, or without an interface.
pub fn bad_header(alloc: Global, file: &Text, error: HeaderError) -> Result<Stop, NoMemory>
    ensures { IfOk result (λ stop. stops.header_stop file.now error ≡ Some stop) }
{
    match error {
        HeaderError::Memory => Err(NoMemory::Memory),
        HeaderError::NotUtf8(before) => refused(
            alloc,
            file,
            Defect::File(FileDefect::NotUtf8(before as u64)),
        ),
        HeaderError::Header(line) => bad_line_of_header(alloc, file, line),
        HeaderError::Version(number) => refused(
            alloc,
            file,
            Defect::File(FileDefect::Version(number)),
        ),
    }
}
