//! JSON values: reading them exactly, printing them compactly, and looking into them.
//!
//! This crate is the face of three: `json_value` has the values and the grammar of their texts, `json_read`
//! the reader and `json_print` the printer.
#![tactic(auto)]

mod laws;

pub use json_print::{compact_text_stands_for_its_value, print};
pub use json_read::{fault_is_one, read, text_has_one_value};
pub use json_value::{
    Json, JsonFault, copy, equal, member, parts_have_texts, spells_deeper, whole,
};
pub use laws::{printed_text_has_one_value, texts_tell_values_apart};

#[cfg(test)]
mod tests;
