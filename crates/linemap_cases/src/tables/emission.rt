//! What is emitted of the table in a text.

use super::question::Change;
use crate::answer::Answer;
use linemap_image::{EmitError, Table, TableError, Target, emit};
use linemap_text::{Sections, emit_sections};
use std::alloc::Global;

/// Why nothing is emitted of the table in a text.
#[derive(Clone, Copy)]
pub enum Refusal {
    /// Memory was refused.
    Memory,
    /// An address is too high for the target.
    TooHigh,
    /// The letter and number of another refusal.
    Code(&'static str),
}

/// The image of the table in a text, with its change.
pub fn image_of(
    alloc: Global,
    text: &[u8],
    target: Target,
    change: Option<Change>,
) -> Result<Vec<u8>, Refusal> {
    match Table::read(alloc, text) {
        Ok(table) if !table.fits(&target) => Err(Refusal::TooHigh),
        Ok(table) => match emit(alloc, &table, target) {
            Ok(image) => Ok(apply_change(image, change)),
            Err(error) => Err(refusal_to_emit(error)),
        },
        Err(error) => Err(refusal_to_read(error)),
    }
}

/// The sections of the table in a text.
pub fn sections_of(alloc: Global, text: &[u8], target: Target) -> Result<Sections, Refusal> {
    match Table::read(alloc, text) {
        Ok(table) if !table.fits(&target) => Err(Refusal::TooHigh),
        Ok(table) => match emit_sections(alloc, &table, target) {
            Ok(sections) => Ok(sections),
            Err(error) => Err(refusal_to_emit(error)),
        },
        Err(error) => Err(refusal_to_read(error)),
    }
}

/// Adds what the table in a text weighs.
pub fn add_weight(text: &[u8], out: &mut Answer) {
    match Table::read(out.alloc, text) {
        Ok(table) => out.value(&table.weight()),
        Err(error) => out.refuse_table(refusal_to_read(error)),
    }
}

fn refusal_to_read(error: TableError) -> Refusal {
    match error {
        TableError::Memory => Refusal::Memory,
        other => Refusal::Code(other.code()),
    }
}

fn refusal_to_emit(error: EmitError) -> Refusal {
    match error {
        EmitError::Memory => Refusal::Memory,
        other => Refusal::Code(other.code()),
    }
}

fn apply_change(mut image: Vec<u8>, change: Option<Change>) -> Vec<u8> {
    if let Some(change) = change {
        put(&mut image, change);
    }
    image
}

fn put(image: &mut Vec<u8>, change: Change) {
    if let Some(byte) = image.get_mut(change.offset) {
        *byte = change.byte;
    }
}
