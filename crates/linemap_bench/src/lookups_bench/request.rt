//! What the command line asks of an image.

/// The readers that lookups go through.
#[derive(Clone, Copy, Debug, PartialEq, Eq)]
pub enum ReaderKind {
    Borrowed,
    Shared,
}

/// What is asked of each address.
#[derive(Clone, Copy, Debug, PartialEq, Eq)]
pub enum Question {
    Place,
    Frames,
    /// The loads that lookups wait for, and then the frames.
    Loads,
    Unit,
}

/// What all units have.
#[derive(Clone, Copy, Debug, PartialEq, Eq)]
pub enum Part {
    Lines,
    Functions,
    /// The functions with the calls that are inlined into them.
    Calls,
}

/// What is asked of a context.
#[derive(Clone, Copy, Debug, PartialEq, Eq)]
pub enum Task<'a> {
    /// This of each address of a file.
    Each(Question, &'a str),
    /// The places of all addresses at which rows begin.
    Rows,
    /// To read this of all units.
    Read(Part),
}

/// An image, the readers, and what is asked.
#[derive(Drop)]
pub struct LookupRequest<'a> {
    pub image: &'a str,
    pub reader: ReaderKind,
    pub task: Task<'a>,
}

/// The request of a command line's words after `image`.
pub fn lookup_request_of(words: &[String]) -> Option<LookupRequest<'_>> {
    let (image, rest) = words.split_first()?;
    let (reader, rest) = rest.split_first()?;
    let reader = reader_of(reader)?;
    let task = task_of(rest)?;
    Some(LookupRequest {
        image,
        reader,
        task,
    })
}

fn reader_of(word: &str) -> Option<ReaderKind> {
    match word {
        "slice" => Some(ReaderKind::Borrowed),
        "bytes" => Some(ReaderKind::Shared),
        _ => None,
    }
}

fn task_of(words: &[String]) -> Option<Task<'_>> {
    match words {
        [word, file] => Some(Task::Each(question_of(word)?, file)),
        [word] => task_for_all(word),
        _ => None,
    }
}

fn question_of(word: &str) -> Option<Question> {
    match word {
        "places" => Some(Question::Place),
        "frames" => Some(Question::Frames),
        "loads" => Some(Question::Loads),
        "unit" => Some(Question::Unit),
        _ => None,
    }
}

fn task_for_all(word: &str) -> Option<Task<'_>> {
    match word {
        "all" => Some(Task::Rows),
        "lines" => Some(Task::Read(Part::Lines)),
        "functions" => Some(Task::Read(Part::Functions)),
        "calls" => Some(Task::Read(Part::Calls)),
        _ => None,
    }
}
