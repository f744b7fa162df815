//! Paragraphs of the input.

use super::data::{bytes_of, number_of};
use super::files::{File, file_number, section_of};
use super::question::{Question, question_of, section_question_of};
use super::units::units_of;
use crate::mistake::Mistake;
use addr2line_context::SectionId;
use std::alloc::Global;

/// A question, and its line.
#[derive(Drop)]
pub struct Asked {
    pub line: String,
    pub question: Question,
}

/// A file, and what is asked of it.
#[derive(Drop)]
pub struct Case {
    /// The file is kept under its name, and nothing is asked.
    pub is_file: bool,
    pub file: File,
    /// What is asked is asked of the file's sections and units, and of no context.
    pub is_about_sections: bool,
    /// The number of its supplement among the files.
    pub supplement: Option<usize>,
    /// The number of its main file among the files, and that of the skeleton of its units there.
    pub skeleton: Option<(usize, usize)>,
    pub asked: Vec<Asked>,
}

impl Case {
    /// Reads a paragraph after those of some files.
    pub fn parse(alloc: Global, files: &[File], lines: &[String]) -> Result<Case, Mistake> {
        let mut case = Case {
            is_file: false,
            file: File::new(alloc),
            is_about_sections: false,
            supplement: None,
            skeleton: None,
            asked: Vec::new(alloc),
        };
        for line in lines {
            case.add_line(alloc, files, line)?;
        }
        Ok(case)
    }

    fn add_line(&mut self, alloc: Global, files: &[File], line: &str) -> Result<(), Mistake> {
        let (word, rest) = line.split_once(' ').unwrap_or((line, ""));
        match word {
            "file" => self.begin_file(alloc, files, rest),
            "context" => self.add_sections(alloc, files, rest),
            "sections" => {
                self.is_about_sections = true;
                self.add_sections(alloc, files, rest)
            }
            "skeleton" => {
                self.skeleton = Some(skeleton_of(files, rest)?);
                Ok(())
            }
            "supplement" => {
                self.supplement = Some(file_number(files, rest)?);
                Ok(())
            }
            "units" => Ok(self.file.set(SectionId::DebugInfo, units_of(alloc, rest)?)?),
            "" => Ok(self.file.extend(&bytes_of(alloc, rest)?)?),
            _ => match section_of(word) {
                Some(id) => Ok(self.file.set(id, bytes_of(alloc, rest)?)?),
                None => self.ask(alloc, files, line),
            },
        }
    }

    // The words are the file's name, and that of the file that it is like, if there is one.
    fn begin_file(&mut self, alloc: Global, files: &[File], words: &str) -> Result<(), Mistake> {
        self.is_file = true;
        match words.split_once(' ') {
            Some((name, like)) => {
                self.file.name = name.to_string(alloc)?;
                self.add_sections(alloc, files, like)
            }
            None => {
                self.file.name = words.to_string(alloc)?;
                Ok(())
            }
        }
    }

    // Adds the sections of the file of a name.
    fn add_sections(&mut self, alloc: Global, files: &[File], name: &str) -> Result<(), Mistake> {
        match files.get(file_number(files, name)?) {
            Some(file) => Ok(self.file.set_all(alloc, file)?),
            None => Err(Mistake::Word),
        }
    }

    fn ask(&mut self, alloc: Global, files: &[File], line: &str) -> Result<(), Mistake> {
        let question = if self.is_about_sections {
            section_question_of(line)
        } else {
            question_of(files, line)?
        };
        let line = line.to_string(alloc)?;
        Ok(self.asked.push(Asked { line, question })?)
    }
}

// The words are the main file's name and the skeleton's number.
fn skeleton_of(files: &[File], words: &str) -> Result<(usize, usize), Mistake> {
    let (name, number) = words.split_once(' ').ok_or(Mistake::Word)?;
    let main = file_number(files, name)?;
    let number = usize::try_from(number_of(number)?).map_err(|_| Mistake::Word)?;
    Ok((main, number))
}
