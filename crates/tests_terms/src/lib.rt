//! Tests of terms, of lines, of tokens, of plain images and of the sample module, by what their
//! crates show.
#![tactic(auto)]

#[cfg(test)]
mod asserts;
#[cfg(test)]
mod conditions;
#[cfg(test)]
mod core_texts;
#[cfg(test)]
mod cutting;
#[cfg(test)]
mod images_by_number;
#[cfg(test)]
mod instances;
#[cfg(test)]
mod line_parts;
#[cfg(test)]
mod lines;
#[cfg(test)]
mod names;
#[cfg(test)]
mod orders;
#[cfg(test)]
mod pairs;
#[cfg(test)]
mod plain_images;
#[cfg(test)]
mod sample_module;
#[cfg(test)]
mod samples;
#[cfg(test)]
mod slots;
#[cfg(test)]
mod sorts;
