//! Tests of what `sx_extension` and `sx_uses` show, and of derivations by a language with an
//! extension.
#![tactic(auto)]

#[cfg(test)]
mod asserts;
#[cfg(test)]
mod bad_extensions;
#[cfg(test)]
mod expanded;
#[cfg(test)]
mod extensions;
#[cfg(test)]
mod goals;
#[cfg(test)]
mod opened;
#[cfg(test)]
mod samples;
#[cfg(test)]
mod uses_read;
