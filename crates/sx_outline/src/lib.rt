//! Language files and extension files, read line by line without a grammar.
#![tactic(auto)]

mod declared_rows;
mod due;
mod extension_finish;
mod extension_header;
mod extension_outline;
mod extension_reading;
mod finish;
mod first_pass;
mod fitting;
mod head;
mod header_lines;
mod header_reading;
mod header_uses;
mod kept;
mod kids;
mod known;
mod laws;
mod main_finding;
mod main_form;
mod next_line;
mod open_line;
mod outline;
mod outline_error;
mod part_names;
mod places;
mod plain_lines;
mod read;
mod read_lines;
mod reader;
mod reading;
mod role_places;
mod row_taking;
mod rule_lines;
mod spelled_row;
mod stage;
mod stems;
mod tables;

pub use extension_header::ExtensionHeader;
pub use extension_outline::ExtensionOutline;
pub use extension_reading::read_extension_outline;
pub use header_reading::read_extension_header;
pub use laws::{
    extension_lines_are_whole, extension_lines_have_headers, extension_outlines_have_lines,
    good_lines_are_outlines, lines_have_extension_outlines, lines_have_outlines,
    one_extension_header, one_extension_outline, one_outline_answer, outline_lines_are_good,
    outlines_have_headers, outlines_have_lines, refused_extension_files, refused_headers,
    refused_language_files, whole_lines_are_outlines,
};
pub use main_form::MainForm;
pub use outline::Outline;
pub use outline_error::OutlineError;
pub use plain_lines::PlainLines;
pub use read::read_outline;
pub use rule_lines::{RuleLine, RuleLines};
