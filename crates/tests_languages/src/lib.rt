//! Tests of the crates that read languages and modules: `sx_directives`, `sx_outline`,
//! `sx_notation`, `sx_language` and `sx_build`.
#![tactic(auto)]

#[cfg(test)]
mod asserts;
#[cfg(test)]
mod bad_languages;
#[cfg(test)]
mod bad_lines;
#[cfg(test)]
mod extension_headers;
#[cfg(test)]
mod goals_printed;
#[cfg(test)]
mod languages;
#[cfg(test)]
mod lines_read;
#[cfg(test)]
mod outlines;
#[cfg(test)]
mod reading;
#[cfg(test)]
mod rows;
#[cfg(test)]
mod rule_grammars;
