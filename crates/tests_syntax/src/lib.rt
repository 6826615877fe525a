//! Tests of grammars, charts, readings and printing: small grammars and texts, worked out by hand.
#![tactic(auto)]

#[cfg(test)]
mod asserts;
#[cfg(test)]
mod extended_grammars;
#[cfg(test)]
mod known;
#[cfg(test)]
mod parts_of_readings;
#[cfg(test)]
mod prints;
#[cfg(test)]
mod readings;
#[cfg(test)]
mod refused_grammars;
#[cfg(test)]
mod renumbered;
#[cfg(test)]
mod samples;
#[cfg(test)]
mod spans;
#[cfg(test)]
mod symbols;
#[cfg(test)]
mod told;
#[cfg(test)]
mod two_readings;
#[cfg(test)]
mod widened_grammars;
