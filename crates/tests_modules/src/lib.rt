//! Tests of the commands over modules with extensions and imports, of the auditors that are handed
//! in, and of the plans of modules.
#![tactic(auto)]

#[cfg(test)]
mod asserts;
#[cfg(test)]
mod extended_modules;
#[cfg(test)]
mod extensions_checked;
#[cfg(test)]
mod faults_of_builds;
#[cfg(test)]
mod modules_audited;
#[cfg(test)]
mod modules_compiled;
#[cfg(test)]
mod modules_imported;
#[cfg(test)]
mod modules_planned;
#[cfg(test)]
mod modules_rewritten;
#[cfg(test)]
mod modules_sampled;
#[cfg(test)]
mod modules_verified;
#[cfg(test)]
mod own_auditor;
#[cfg(test)]
mod planning;
#[cfg(test)]
mod reads_counted;
#[cfg(test)]
mod scenes;
