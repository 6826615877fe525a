//! Tests of the crates of commands, from the words of the command line to the files of a run.
#![tactic(auto)]

#[cfg(test)]
mod asserts;
#[cfg(test)]
mod core_files_built;
#[cfg(test)]
mod core_files_verified;
#[cfg(test)]
mod faults;
#[cfg(test)]
mod files_cut_off;
#[cfg(test)]
mod headers;
#[cfg(test)]
mod interface_samples;
#[cfg(test)]
mod interfaces;
#[cfg(test)]
mod language;
#[cfg(test)]
mod modules_built;
#[cfg(test)]
mod modules_refused;
#[cfg(test)]
mod refusal_lines;
#[cfg(test)]
mod runs_refused;
#[cfg(test)]
mod samples;
#[cfg(test)]
mod shelves;
#[cfg(test)]
mod sinks;
#[cfg(test)]
mod sources;
#[cfg(test)]
mod steps;
#[cfg(test)]
mod words;
