//! Tests of the crates of the logic: rules, shared terms, searches, replays and core files.
#![tactic(auto)]

#[cfg(test)]
mod asking;
#[cfg(test)]
mod asserts;
#[cfg(test)]
mod auditors;
#[cfg(test)]
mod bad_core_lines;
#[cfg(test)]
mod core_files;
#[cfg(test)]
mod lists;
#[cfg(test)]
mod named;
#[cfg(test)]
mod replays;
#[cfg(test)]
mod rule_sets;
#[cfg(test)]
mod samples;
#[cfg(test)]
mod searches;
#[cfg(test)]
mod shared_terms;
#[cfg(test)]
mod shown;
#[cfg(test)]
mod shown_units;
#[cfg(test)]
mod stuck_goals;
#[cfg(test)]
mod taken_up_again;
#[cfg(test)]
mod terms;
