//! What the operations are about.

/// The part of this program that answers a question.
#[derive(Clone, Copy)]
pub enum Facility {
    Refusals,
    Numbers,
    Parts,
    SliceParts,
    Widths,
    Bases,
    SectionNames,
    Sections,
    Borrowed,
    Caches,
    Units,
    UnitParts,
    Entries,
    Attributes,
    Ranges,
    Locations,
    ListsHeader,
    RangePlaces,
    Lines,
    LineChecks,
    Steps,
    Writing,
    Programs,
    ProgramParts,
    Tables,
    Unknown,
}

const OPERATIONS: [(Facility, &[&str]); 25] = [
    (Facility::Refusals, &["refusals"]),
    (
        Facility::Numbers,
        &[
            "text",
            "uleb128_of",
            "sleb128_of",
            "usual_line_encoding",
            "sizes_of_format",
            "offsets_of_32_bits",
            "offsets_of_64_bits",
            "offsets",
            "fixed",
            "signed_fixed",
            "uleb128",
            "uleb128_of_32_bits",
            "uleb128_of_16_bits",
            "sleb128",
            "skip_leb128",
            "address_size",
            "address",
            "offset",
            "length",
            "word",
            "offset_of_2_bytes",
            "initial_length",
        ],
    ),
    (Facility::Parts, &["parts"]),
    (Facility::SliceParts, &["slice_parts"]),
    (Facility::Widths, &["width_of_forms"]),
    (Facility::Bases, &["default_bases"]),
    (Facility::SectionNames, &["section_names"]),
    (
        Facility::Sections,
        &[
            "abbreviations",
            "attribute_at",
            "check_abbreviations",
            "same_abbreviation",
            "find_abbreviation",
            "table_of_one",
            "string",
            "line_string",
            "string_offset",
            "address_at",
            "address_sets",
        ],
    ),
    (
        Facility::Borrowed,
        &[
            "borrowed_sections",
            "borrowed_line_string",
            "borrowed_units",
        ],
    ),
    (
        Facility::Caches,
        &["cache_of_all", "cache_of_duplicates", "cache_of_one"],
    ),
    (
        Facility::Units,
        &[
            "units",
            "unit",
            "size_of_header",
            "tombstone",
            "arange_sets",
            "aranges",
            "aranges_by_one",
        ],
    ),
    (Facility::UnitParts, &["unit_parts"]),
    (
        Facility::Entries,
        &[
            "entries",
            "entries_skipped",
            "attributes_from",
            "attributes_of_name",
            "entry",
            "attribute_of_entry",
        ],
    ),
    (
        Facility::Attributes,
        &[
            "attributes",
            "skip_attributes",
            "attribute_numbers",
            "attribute_offset",
            "attribute_string",
            "attribute_expression",
        ],
    ),
    (
        Facility::Ranges,
        &["ranges", "ranges_by_one", "raw_ranges", "range_list_offset"],
    ),
    (
        Facility::Locations,
        &[
            "locations",
            "locations_by_one",
            "raw_locations",
            "location_list_offset",
        ],
    ),
    (Facility::ListsHeader, &["lists_header"]),
    (Facility::RangePlaces, &["place_in_ranges"]),
    (
        Facility::Lines,
        &[
            "line_header",
            "line_parameters",
            "line_lists",
            "line_files",
            "line_formats",
            "line_rows",
            "line_rows_at_once",
            "line_instructions",
            "line_sequences",
        ],
    ),
    (Facility::LineChecks, &["check_line_header"]),
    (Facility::Steps, &["line_steps", "line_copy"]),
    (
        Facility::Writing,
        &[
            "write_fixed",
            "write_fixed_at",
            "write_udata",
            "write_sdata",
            "write_udata_at",
            "write_uleb128",
            "write_sleb128",
            "write_offset",
            "write_offset_at",
            "write_address",
            "write_symbol",
            "write_length",
            "write_bytes",
        ],
    ),
    (Facility::Programs, &["line_program", "line_unit"]),
    (Facility::ProgramParts, &["program_parts", "no_program"]),
    (Facility::Tables, &["string_tables", "header_text"]),
];

/// What an operation is about.
pub fn facility_of(operation: &str) -> Facility {
    for (facility, operations) in OPERATIONS {
        if contains(operations, operation) {
            return facility;
        }
    }
    Facility::Unknown
}

fn contains(operations: &[&str], operation: &str) -> bool {
    for name in operations {
        if *name == operation {
            return true;
        }
    }
    false
}
