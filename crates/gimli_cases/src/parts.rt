//! Parts of readers.

use crate::answer::Answer;
use crate::case::Case;
use gimli_core::{EndianSlice, Reader, ReaderOffsetId, read_u8_array};

/// The bytes before the offset, where the identifier of the index is in those after it, the next
/// two of these, and what is left then, and when all bytes are dropped.
pub fn answer<R: Reader>(case: &Case, mut reader: R, out: &mut Answer) {
    match case.offset() {
        Ok(count) => match reader.split(count) {
            Ok(part) => match part.to_slice() {
                Ok(bytes) => out.digits(bytes.as_slice()),
                Err(error) => out.refuse(error),
            },
            Err(error) => out.refuse(error),
        },
        Err(error) => out.refuse(error),
    }
    out.text(" ");
    out.word(&reader.lookup_offset_id(ReaderOffsetId(case.index)));
    match read_u8_array::<2, _>(&mut reader) {
        Ok(bytes) => out.digits(bytes.as_slice()),
        Err(error) => out.refuse(error),
    }
    out.text(" ");
    out.bytes(&reader);
    reader.empty();
    out.text(" ");
    out.bytes(&reader);
}

/// What only readers of borrowed bytes do: the text before the offset, how far it is to what comes
/// after it, where the byte of the size is in that, and whether it begins with the second section.
pub fn answer_about_slices(case: &Case, out: &mut Answer) {
    let whole = EndianSlice::new(case.section(0), case.order());
    let byte = EndianSlice::new(case.section(1), case.order());
    let place = case.place();
    if place < whole.slice().len() {
        let (front, back) = whole.split_at(place);
        match front.to_string() {
            Ok(text) => out.text(text),
            Err(error) => out.refuse(error),
        }
        out.text(" ");
        out.word(&back.offset_from(&whole));
        out.word(&back.find(case.size));
        out.code(&(whole.range(place..place + 1) == byte));
    }
}
