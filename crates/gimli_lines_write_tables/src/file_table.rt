//! Directories and files, each once.

ghost use Rattle.std.specs.Prelude.{◌≡◌, ◌≢◌, ◌<◌, ◌≤◌, [], ◌∷◌, ◌++◌, Some, option_map, map, set, true, false, length, slice_get, OnOk, OnErr, IfOk, IfErr};
ghost use Rattle.gimli_lines_write_rows.specs.WriteError.TheVariants.{Memory};
ghost use Rattle.gimli_lines_write_tables.specs.FileTables.{ProgramFiles, is_same, is_same_file, text_of, info_of, HasNoZero, HasBytes, with_directory, with_file, file_of, with_info, IsConsistent};
ghost use Rattle.gimli_lines_write_tables.specs.StringSections.{item_index};
ghost use Rattle.std.specs.Borrow.{Lends, sem};
ghost use Rattle.gimli_lines_write_tables.specs.contracts.file_table.FileTable.{the_row};
ghost use Rattle.gimli_lines_write_tables.specs.contracts.file.FileInfo.{the_row as info_row};
ghost use Rattle.std.specs.List.{list_any};

use crate::LineString;
use crate::file::{DirectoryId, FileInfo, FileKey};
use gimli_lines_write_rows::{Error, FileId};
use indexmap::IndexSet;
use std::alloc::Global;
use std::marker::Model;

/// The directories and files of a program. A refused add changes nothing.
#[derive(Drop)]
pub struct FileTable {
    version: u16,
    directories: IndexSet<LineString>,
    files: IndexSet<FileKey>,
    infos: Vec<FileInfo>,
}

impl Model for FileTable {
    ghost use Rattle.std.specs.Prelude.{List, map};
    ghost use Rattle.gimli_lines_write_tables.specs.FileTables.{ProgramFiles, text_of, file_of, info_of, IsConsistent};

    ghost Value = { ProgramFiles };

    ghost view = { λ k. record {
      version = k.version;
      directories = map text_of k.directories.keys;
      files = map file_of k.files.keys;
      infos = map info_of k.infos.items;
    } };

    ghost invariant = { λ k. IsConsistent k.version (map text_of k.directories.keys)
        (map file_of k.files.keys) (map info_of k.infos.items) };
}

// Replaces what is recorded at an index.
fn set_info(infos: &mut Vec<FileInfo>, place: usize, info: FileInfo)
    requires { place < length infos.old.items }
    ensures { infos.new.items ≡ set infos.old.items place info }
{
    infos[place] = info;
}

impl FileTable {
    /// Nothing yet. It takes no memory.
    pub fn new(alloc: Global, version: u16) -> Self
        ensures { result ≡ record { version = version; directories = []; files = []; infos = [] } }
    {
        FileTable {
            version,
            directories: IndexSet::new(alloc),
            files: IndexSet::new(alloc),
            infos: Vec::new(alloc),
        }
    }

    /// How many files there are.
    pub fn file_count(&self) -> usize
        ensures { result ≡ length self.now.files }
    {
        self.files.len()
    }

    /// The id of a directory, which is added where it isn't there.
    pub fn add_directory(&mut self, directory: LineString) -> Result<DirectoryId, Error>
        requires zero_free { HasNoZero (text_of directory) }
        requires not_empty { self.old.version ≤ 4 → self.old.directories ≢ []
            → HasBytes (text_of directory) }
        ensures ok { OnOk result (self.new ≡ with_directory (text_of directory) self.old) }
        ensures place { IfOk result (λ id. id.0 ≡ item_index is_same self.old.directories
            (text_of directory)) }
        ensures within { IfOk result (λ id. id.0 < length self.new.directories) }
        ensures err { OnErr result (self.new ≡ self.old) }
        ensures refusal { IfErr result (λ e. e ≡ Memory) }
    {
        let (place, _added) = self.directories.insert_full(directory)?;
        Ok(DirectoryId(place))
    }

    /// The directory of an id.
    pub fn directory(&self, id: DirectoryId) -> &LineString
        requires { id.0 < length self.now.directories }
        ensures { slice_get self.now.directories id.0 ≡ Some (text_of result.now) }
    {
        &self.directories[id.0]
    }

    // Adds a file that isn't there.
    fn push_file(&mut self, key: FileKey, info: FileInfo) -> Result<FileId, Error>
        requires absent { list_any (is_same_file (file_of key)) self.old.files ≡ false }
        requires zero_free { HasNoZero (text_of key.path) }
        requires directory { key.directory.0 < length self.old.directories }
        requires not_empty { self.old.version ≤ 4 → HasBytes (text_of key.path) }
        ensures ok { OnOk result (self.new ≡ record self.old {
          files = self.old.files ++ file_of key
              ∷ [];
          infos = self.old.infos ++ info_of info ∷ [];
        }) }
        ensures place { IfOk result (λ id. id.0 ≡ length self.old.files) }
        ensures within { IfOk result (λ id. id.0 < length self.new.files) }
        ensures err { OnErr result (self.new ≡ self.old) }
        ensures refusal { IfErr result (λ e. e ≡ Memory) }
    {
        let place = self.infos.len();
        self.infos.push(info)?;
        match self.files.insert(key) {
            Ok(_added) => Ok(FileId(place)),
            Err(_refused) => {
                self.infos.truncate(place);
                Err(Error::Memory)
            }
        }
    }

    // Records new information about a file that is there, if there is any.
    fn update_info(&mut self, place: usize, info: Option<FileInfo>)
        requires { place < length self.old.files }
        ensures { self.new ≡ record self.old
            { infos = with_info self.old.infos place true (option_map info_of info) } }
    {
        if let Some(info) = info {
            set_info(&mut self.infos, place, info);
        }
    }

    /// The id of a file in one of the directories, which is added where it isn't there. New
    /// information replaces what was recorded before; without any, that stays, and nothing is
    /// recorded of a new file.
    pub fn add_file(
        &mut self,
        path: LineString,
        directory: DirectoryId,
        info: Option<FileInfo>,
    ) -> Result<FileId, Error>
        requires zero_free { HasNoZero (text_of path) }
        requires directory { directory.0 < length self.old.directories }
        requires not_empty { self.old.version ≤ 4 → HasBytes (text_of path) }
        ensures ok { OnOk result (self.new ≡ with_file
            (record { path = text_of path; directory = directory.0 }) (option_map info_of info)
            self.old) }
        ensures place { IfOk result (λ id. id.0 ≡ item_index is_same_file self.old.files
            (record { path = text_of path; directory = directory.0 })) }
        ensures within { IfOk result (λ id. id.0 < length self.new.files) }
        ensures err { OnErr result (self.new ≡ self.old) }
        ensures refusal { IfErr result (λ e. e ≡ Memory) }
    {
        let key = FileKey { path, directory };
        match self.files.get_index_of(&key) {
            Some(place) => {
                self.update_info(place, info);
                Ok(FileId(place))
            }
            None => self.push_file(key, info.unwrap_or_default()),
        }
    }

    /// The file of an id: its path and its directory.
    pub fn file(&self, id: FileId) -> (&LineString, DirectoryId)
        requires { id.0 < length self.now.files }
        ensures { slice_get self.now.files id.0
            ≡ Some (record { path = text_of result.0.now; directory = result.1.0 }) }
    {
        let key = &self.files[id.0];
        (&key.path, key.directory)
    }

    /// What is recorded of a file.
    pub fn info(&self, id: FileId) -> &FileInfo
        requires { id.0 < length self.now.files }
        ensures { slice_get self.now.infos id.0 ≡ Some (info_of result.now) }
    {
        &self.infos[id.0]
    }

    /// What is recorded of a file, to be changed.
    pub fn info_mut(&mut self, id: FileId) -> &mut FileInfo
        requires { id.0 < length self.old.files }
        ensures value { slice_get self.old.infos id.0 ≡ Some (info_of result.now) }
        ensures* after { sem 𝓛 (Lends the_row info_row self.entry result
            (λ w. record self.old { infos = set self.old.infos id.0 (info_of w) })) }
    {
        &mut self.infos[id.0]
    }

    /// The directories, in order.
    pub fn directories(&self) -> &[LineString]
        ensures value { map text_of result.now ≡ self.now.directories }
        ensures consistent { IsConsistent self.now.version self.now.directories self.now.files
            self.now.infos }
    {
        self.directories.as_slice()
    }

    /// The files, in order.
    pub fn files(&self) -> &[FileKey]
        ensures { map file_of result.now ≡ self.now.files }
    {
        self.files.as_slice()
    }

    /// What is recorded of the files, in order.
    pub fn infos(&self) -> &[FileInfo]
        ensures { map info_of result.now ≡ self.now.infos }
    {
        self.infos.as_slice()
    }
}
