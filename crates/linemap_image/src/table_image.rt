//! The image of a table.

ghost use Rattle.std.specs.Prelude.{◌≡◌, ◌≤◌, ◌^◌, ◌↔◌, true, IfOk, IsErrOf};
ghost use Rattle.linemap_elf.specs.ImageLaws.{ImageFits, HoldsSections};
ghost use Rattle.linemap_elf.specs.SpelledImages.{all_sections};
ghost use Rattle.linemap_emit.specs.EncodingFits.{fits};
ghost use Rattle.linemap_emit.specs.EmissionTargets.{encoding_of, is_big_of};
ghost use Rattle.linemap_emit.specs.EmittedSections.{emitted_sections};
ghost use Rattle.linemap_emit.specs.TableUnits.{units_of};
ghost use Rattle.linemap_emit.specs.TableWeight.{table_weight};
ghost use Rattle.linemap_image.specs.ImageAnswers.{FileAnswers};
ghost use Rattle.linemap_image.specs.TableImages.{class_of, section_ids, named_sections, image_sections, emitted_image};

use gimli_core_base::SectionId;
use linemap_elf::{Class, Section, write_image};
use linemap_emit::{EmitError, Sections, Table, Target, emit_sections};
use std::alloc::{AllocError, Global};

// The sections of an image up to version 4, in their order.
const SECTIONS_TO_VERSION_4: [SectionId; 5] = [
    SectionId::DebugAbbrev,
    SectionId::DebugInfo,
    SectionId::DebugLine,
    SectionId::DebugRanges,
    SectionId::DebugStr,
];

// The sections of an image from version 5 on, in their order.
const SECTIONS_FROM_VERSION_5: [SectionId; 6] = [
    SectionId::DebugAbbrev,
    SectionId::DebugInfo,
    SectionId::DebugLine,
    SectionId::DebugLineStr,
    SectionId::DebugRngLists,
    SectionId::DebugStr,
];

/// The image of a table, for a target that it fits (`Table::fits`): an ELF file with the sections
/// of `emit_sections`. A table whose weight is 2^31 or more is refused before any memory is taken;
/// any other is emitted if there is enough memory. The image is in memory once, beside the
/// sections.
pub fn emit(alloc: Global, table: &Table, target: Target) -> Result<Vec<u8>, EmitError>
    requires fits { fits (encoding_of target).address_size (units_of table.now) ≡ true }
    ensures too_large { IsErrOf result EmitError.TooLarge
        ↔ (2 ^ 31 ≤ table_weight (units_of table.now)) }
    ensures image { IfOk result (λ bytes. bytes.items
        ≡ emitted_image (encoding_of target) (is_big_of target)
        (emitted_sections (encoding_of target) (is_big_of target) (units_of table.now))) }
    ensures answers { IfOk result (λ bytes. FileAnswers bytes.items (units_of table.now)) }
{
    let sections = emit_sections(alloc, table, target)?;
    match image_of(alloc, &sections, target) {
        Ok(image) => Ok(image),
        Err(_refused) => Err(EmitError::Memory),
    }
}

// The image of some sections.
fn image_of(alloc: Global, sections: &Sections, target: Target) -> Result<Vec<u8>, AllocError>
    requires { ImageFits (class_of (encoding_of target).address_size)
        (image_sections (encoding_of target) sections.now) }
    ensures image { IfOk result (λ bytes. bytes.items
        ≡ emitted_image (encoding_of target) (is_big_of target) sections.now) }
    ensures again { IfOk result (λ bytes. HoldsSections (is_big_of target)
        (all_sections (image_sections (encoding_of target) sections.now)) bytes.items) }
{
    let encoding = target.encoding();
    let class = class_of(encoding.address_size);
    let named = named_sections(alloc, sections, encoding.version)?;
    write_image(alloc, class, target.endian(), &named)
}

// The sections of an image, with their names.
fn named_sections<'a>(
    alloc: Global,
    sections: &'a Sections,
    version: u16,
) -> Result<Vec<Section<'a>>, AllocError>
    ensures { IfOk result (λ named. named.items
        ≡ named_sections sections.now (section_ids version)) }
{
    let mut named = Vec::new(alloc);
    for id in section_ids(version) {
        named.push(Section::new(id.name(), sections.get(*id)))?;
    }
    Ok(named)
}

// The sections of an image, in their order.
#[tactic(auto, unfolding(crate::specs::TableImages::section_ids))]
fn section_ids(version: u16) -> &'static [SectionId]
    ensures { result.now ≡ section_ids version }
{
    if version <= 4 {
        &SECTIONS_TO_VERSION_4
    } else {
        &SECTIONS_FROM_VERSION_5
    }
}

// The class of an image whose addresses have a number of bytes.
fn class_of(address_size: u8) -> Class
    ensures { result ≡ class_of address_size }
{
    if address_size == 4 {
        Class::Elf32
    } else {
        Class::Elf64
    }
}
