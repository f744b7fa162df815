ghost use Rattle.std.specs.Prelude.{◌≡◌, ℕ};
ghost use Rattle.gimli_core_base.specs.declared.common.Format.{Format};
ghost use Rattle.gimli_core_readers.specs.DefaultBases.{default_base, string_offsets_header_size, lists_header_size};

use gimli_core_base::{
    DebugLocListsBase, DebugRngListsBase, DebugStrOffsetsBase, DwarfFileType, Encoding, Format,
    ReaderOffset,
};

/// A base that a unit's attribute may name.
pub trait DefaultBase: Sized {
    /// The offset that the base is.
    ghost offset: { Self → ℕ };

    /// The number of bytes of the header before a table's entries.
    ghost header_size: { Format → ℕ };

    /// The base of a unit that doesn't name one: in a split file of version 5 or above the first
    /// entry after the section's header, else 0 (DWARF 5, 7.26, 7.28 and 7.29).
    fn default_for_encoding_and_file(encoding: Encoding, file_type: DwarfFileType) -> Self
        ensures { offset result ≡ default_base encoding file_type (header_size encoding.format) };
}

// The base where a unit names none.
fn default_offset<T: ReaderOffset>(
    encoding: Encoding,
    file_type: DwarfFileType,
    header_size: u8,
) -> T
    ensures { T.count result ≡ default_base encoding file_type header_size }
{
    match file_type {
        DwarfFileType::Dwo if encoding.version >= 5 => T::from_u8(header_size),
        _ => T::from_u8(0),
    }
}

// The number of bytes of the header of a table of offsets of lists.
fn lists_header_size(format: Format) -> u8
    ensures { result ≡ lists_header_size format }
{
    format.initial_length_size() + 8
}

impl<T: ReaderOffset> DefaultBase for DebugStrOffsetsBase<T> {
    ghost offset = { λ base. T.count base.0 };

    ghost header_size = { string_offsets_header_size };

    fn default_for_encoding_and_file(encoding: Encoding, file_type: DwarfFileType) -> Self {
        let header_size = encoding.format.initial_length_size() + 4;
        DebugStrOffsetsBase(default_offset(encoding, file_type, header_size))
    }
}

impl<T: ReaderOffset> DefaultBase for DebugRngListsBase<T> {
    ghost offset = { λ base. T.count base.0 };

    ghost header_size = { lists_header_size };

    fn default_for_encoding_and_file(encoding: Encoding, file_type: DwarfFileType) -> Self {
        let header_size = lists_header_size(encoding.format);
        DebugRngListsBase(default_offset(encoding, file_type, header_size))
    }
}

impl<T: ReaderOffset> DefaultBase for DebugLocListsBase<T> {
    ghost offset = { λ base. T.count base.0 };

    ghost header_size = { lists_header_size };

    fn default_for_encoding_and_file(encoding: Encoding, file_type: DwarfFileType) -> Self {
        let header_size = lists_header_size(encoding.format);
        DebugLocListsBase(default_offset(encoding, file_type, header_size))
    }
}
