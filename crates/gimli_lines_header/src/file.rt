//! The files of a line number program.

ghost use Rattle.std.specs.Prelude.{◌≡◌, None, option_map};
ghost use Rattle.gimli_units_headers.specs.Calls.{ReturnsAs};
ghost use Rattle.gimli_units_forms.specs.AttributeValues.{raw_value_of};
ghost use Rattle.gimli_lines_header.specs.LineFiles.{file_named};
ghost use Rattle.gimli_lines_header.specs.LineHeaders.{directory_at};
ghost use Rattle.gimli_lines_header.specs.HeaderTables.{file_after_path};

use crate::field_values::read_number;
use crate::header::LineProgramHeader;
use gimli_units_forms::AttributeValue;
use gimli_units_headers::{Error, Reader};
use std::marker::Model;

/// A file that rows name by its number (DWARF 5, 6.2.4.1).
pub struct FileEntry<R: Reader> {
    pub(crate) path_name: AttributeValue<R>,
    pub(crate) directory_index: u64,
    pub(crate) timestamp: u64,
    pub(crate) size: u64,
    pub(crate) md5: [u8; 16],
    // On the heap: few files have one.
    pub(crate) source: Option<Box<AttributeValue<R>>>,
}

// Compiled into its caller, as of a reader of shared bytes: else each instruction that could hold a
// file would be written to memory.
impl<R: Reader> Drop for FileEntry<R> {
    #[inline(always)]
    fn drop(self) {
        let FileEntry {
            path_name: _,
            directory_index: _,
            timestamp: _,
            size: _,
            md5: _,
            source: _,
        } = self;
    }
}

impl<R: Reader> Model for FileEntry<R> {
    ghost use Rattle.std.specs.Prelude.{option_map};
    ghost use Rattle.gimli_units_forms.specs.AttributeValues.{raw_value_of};
    ghost use Rattle.gimli_lines_header.specs.LineFiles.{FileFacts};

    ghost Value = { FileFacts };

    ghost view = { λ f. record {
      path = raw_value_of R.view R.Offset.count f.path_name;
      directory_index = f.directory_index;
      timestamp = f.timestamp;
      size = f.size;
      md5 = f.md5;
      source = option_map (λ s. raw_value_of R.view R.Offset.count s.value) f.source;
    } };
}

impl<R: Reader> FileEntry<R> {
    // A unit's file: its name, in directory 0.
    pub(crate) fn of_unit_name(name: R) -> Self
        ensures { result ≡ file_named (R.view name) }
    {
        FileEntry {
            path_name: AttributeValue::String(name),
            directory_index: 0,
            timestamp: 0,
            size: 0,
            md5: [0; 16],
            source: None,
        }
    }

    // A file of a directory, with a digest, whose time and size aren't known.
    #[inline(always)]
    pub(crate) fn in_directory(
        path_name: AttributeValue<R>,
        directory_index: u64,
        md5: [u8; 16],
    ) -> Self
        ensures { result ≡ record {
          path = raw_value_of R.view R.Offset.count path_name;
          directory_index = directory_index;
          timestamp = 0;
          size = 0;
          md5 = md5;
          source = None;
        } }
    {
        FileEntry {
            path_name,
            directory_index,
            timestamp: 0,
            size: 0,
            md5,
            source: None,
        }
    }

    /// The file of a path up to version 4: the number of its directory, its time and its size
    /// follow the path.
    #[tactic(auto, unfolding(crate::specs::HeaderTables::file_after_path))]
    #[inline(always)]
    pub fn parse(input: &mut R, path_name: R) -> Result<Self, Error>
        ensures { ReturnsAs (λ file. (file, R.view input.new)) result
            (file_after_path (R.view path_name) (R.view input.old)) }
    {
        let directory_index = read_number(input)?;
        let timestamp = read_number(input)?;
        let size = read_number(input)?;
        Ok(FileEntry {
            path_name: AttributeValue::String(path_name),
            directory_index,
            timestamp,
            size,
            md5: [0; 16],
            source: None,
        })
    }

    /// The path, absolute or below the file's directory.
    pub fn path_name(&self) -> &AttributeValue<R>
        ensures { raw_value_of R.view R.Offset.count result.now ≡ self.now.path }
    {
        &self.path_name
    }

    /// The number of the file's directory: up to version 4 directory 0 is the unit's.
    pub fn directory_index(&self) -> u64
        ensures { result ≡ self.now.directory_index }
    {
        self.directory_index
    }

    /// The file's directory, none where the header lacks its number.
    pub fn directory<'header>(
        &self,
        header: &'header LineProgramHeader<R>,
    ) -> Option<&'header AttributeValue<R>>
        ensures { option_map (λ d. raw_value_of R.view R.Offset.count d.now) result
            ≡ directory_at header.now self.now.directory_index }
    {
        header.directory(self.directory_index)
    }

    /// When the file was modified, 0 where it isn't known. What the number counts is the producer's
    /// choice.
    pub fn timestamp(&self) -> u64
        ensures { result ≡ self.now.timestamp }
    {
        self.timestamp
    }

    /// The same time.
    pub fn last_modification(&self) -> u64
        ensures { result ≡ self.now.timestamp }
    {
        self.timestamp
    }

    /// The bytes of the file, 0 where they aren't known.
    pub fn size(&self) -> u64
        ensures { result ≡ self.now.size }
    {
        self.size
    }

    /// The same size.
    pub fn length(&self) -> u64
        ensures { result ≡ self.now.size }
    {
        self.size
    }

    /// The digest of the file, zeros where there is none.
    pub fn md5(&self) -> &[u8; 16]
        ensures { result.now ≡ self.now.md5 }
    {
        &self.md5
    }

    /// The text of the file, which LLVM may put into the header.
    pub fn source(&self) -> Option<&AttributeValue<R>>
        ensures { option_map (λ s. raw_value_of R.view R.Offset.count s.now) result
            ≡ self.now.source }
    {
        match &self.source {
            Some(source) => Some(source.as_ref()),
            None => None,
        }
    }
}
