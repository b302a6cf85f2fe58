//! Beginnings of cases, by their names.
use crate::filling::push_repeated;
use std::alloc::Global;
use std::test::Fail;

/// A beginning: its lines, each with its end.
#[derive(Drop)]
struct Beginning {
    name: String,
    lines: String,
}

/// The beginnings that were read so far.
#[derive(Drop)]
pub(crate) struct Beginnings {
    list: Vec<Beginning>,
}

impl Beginnings {
    pub(crate) fn new(alloc: Global) -> Beginnings {
        Beginnings {
            list: Vec::new(alloc),
        }
    }

    /// The lines of the beginning with this name.
    fn lines_of(&self, name: &str) -> Result<&str, Fail> {
        for beginning in &self.list {
            if beginning.name.as_str() == name {
                return Ok(beginning.lines.as_str());
            }
        }
        Err(Fail::new(format_args!("no beginning {name}")))
    }

    /// Appends the lines of a text, with those of the beginnings that its lines `from NAME, NAME` cite.
    pub(crate) fn push_lines(&self, lines: &mut String, text: &str) -> Result<(), Fail> {
        for line in text.split('\n') {
            match line.strip_prefix("from ") {
                Some(names) => {
                    for name in names.split(", ") {
                        lines.push_str(self.lines_of(name)?)?;
                    }
                }
                None => {
                    push_repeated(lines, line)?;
                    lines.push('\n')?;
                }
            }
        }
        Ok(())
    }

    /// Adds a beginning: the line of its name, and its lines.
    pub(crate) fn add(&mut self, alloc: Global, text: &str) -> Result<(), Fail> {
        let (name, rest) = text.split_once('\n').ok_or("a beginning without lines")?;
        let mut lines = String::new(alloc);
        self.push_lines(&mut lines, rest)?;
        let name = String::from_str(alloc, name)?;
        self.list.push(Beginning { name, lines })?;
        Ok(())
    }
}
