//! Notes (System V ABI, "Note Section"), and the build identifier among them.

ghost use Rattle.std.specs.Prelude.{◌≡◌, option_map};
ghost use Rattle.gimli_core_readers.specs.Calls.{ReturnsAs};
ghost use Rattle.gimli_core_readers.specs.Parsers.{part};
ghost use Rattle.addr2line_debug_files.specs.Notes.{padding, skip_up_to, note, is_build_id, first_build_id};

use gimli_core_readers::{EndianSlice, Error, Reader, RunTimeEndian};

// What the names and the descriptors of notes are padded to.
pub(crate) const NOTE_ALIGNMENT: usize = 4;

// The type of a note with a build identifier, under GNU's name.
pub(crate) const NT_GNU_BUILD_ID: u32 = 3;

// GNU's name in notes.
pub(crate) const ELF_NOTE_GNU: [u8; 4] = *b"GNU\0";

// A note.
#[derive(Debug, Drop)]
pub(crate) struct Note<'a> {
    // The name, with the zero byte at its end.
    pub(crate) name: EndianSlice<'a, RunTimeEndian>,
    // The type; each name has types of its own.
    pub(crate) note_type: u32,
    pub(crate) descriptor: EndianSlice<'a, RunTimeEndian>,
}

impl<'a> Note<'a> {
    // The next note.
    #[tactic(auto, unfolding(crate::specs::Notes::note))]
    fn parse(input: &mut EndianSlice<'a, RunTimeEndian>) -> Result<Note<'a>, Error>
        ensures { ReturnsAs (λ n. (n, input.new)) result (note input.old) }
    {
        let name_size = input.read_u32()? as usize;
        let descriptor_size = input.read_u32()? as usize;
        let note_type = input.read_u32()?;
        let name = part(input, name_size)?;
        input.skip(padding(name_size))?;
        let descriptor = part(input, descriptor_size)?;
        skip_up_to(input, padding(descriptor_size));
        Ok(Note {
            name,
            note_type,
            descriptor,
        })
    }

    // Whether the descriptor is a build identifier.
    fn is_build_id(&self) -> bool
        ensures { result ≡ is_build_id self.now }
    {
        self.note_type == NT_GNU_BUILD_ID && self.name.slice() == ELF_NOTE_GNU.as_slice()
    }
}

// How many bytes follow a number of bytes up to a multiple of the alignment.
pub(crate) fn padding(size: usize) -> usize
    ensures { result ≡ padding size }
{
    (NOTE_ALIGNMENT - size % NOTE_ALIGNMENT) % NOTE_ALIGNMENT
}

// The next bytes, lent.
fn part<'a>(
    input: &mut EndianSlice<'a, RunTimeEndian>,
    size: usize,
) -> Result<EndianSlice<'a, RunTimeEndian>, Error>
    ensures { ReturnsAs (λ bytes. (bytes, input.new)) result (part size input.old) }
{
    input.split(size)
}

// Skips a number of bytes, or what is left.
fn skip_up_to(input: &mut EndianSlice<'_, RunTimeEndian>, count: usize)
    ensures { skip_up_to count input.old ≡ Ok (tt, input.new) }
{
    let count = count.min(input.slice().len());
    input.advance(count);
}

// The build identifier of a section of notes: the descriptor of the first note that has one, before
// any note that the section cuts off.
pub(crate) fn first_build_id<'a>(
    section: EndianSlice<'a, RunTimeEndian>,
) -> Option<EndianSlice<'a, RunTimeEndian>>
    ensures { result ≡ first_build_id section.entry }
{
    let mut rest = section;
    while !rest.is_empty() {
        let Ok(note) = Note::parse(&mut rest) else {
            return None;
        };
        if note.is_build_id() {
            return Some(note.descriptor);
        }
    }
    None
}
