//! The rows of a table: a line each, of fields with bars between them. The first field is the row's name, the last what
//! it must come to.

/// A part of a text by its number, between marks. What isn't there is empty.
pub(crate) fn part(text: &str, mark: char, at: usize) -> &str {
    text.split(mark).nth(at).unwrap_or("")
}

/// A row.
#[derive(Clone, Copy)]
pub struct Row<'a> {
    line: &'a str,
}

impl<'a> Row<'a> {
    /// The row in a line; none in one that is empty or a comment.
    pub fn of(line: &'a str) -> Option<Row<'a>> {
        if line.is_empty() || line.starts_with('#') {
            return None;
        }
        Some(Row { line })
    }

    /// A field by its number, without the blanks around it. What isn't there is empty.
    pub fn field(&self, at: usize) -> &'a str {
        part(self.line, '|', at).trim()
    }

    pub fn name(&self) -> &'a str {
        self.field(0)
    }

    /// The last field.
    pub fn expected(&self) -> &'a str {
        match self.line.rsplit_once('|') {
            Some((_, last)) => last.trim(),
            None => "",
        }
    }
}
