ghost use Rattle.std.specs.Prelude.{◌≡◌, List, IfOk, option_to_list};
ghost use Rattle.input_lines.specs.declared.line.Line.{Line};

use crate::Line;
use std::alloc::{AllocError, Global};
use std::marker::Model;

/// Lines of one buffer, in order.
#[derive(Drop)]
pub struct FoundLines<'a> {
    lines: Vec<Line<'a>>,
}

impl<'a> Model for FoundLines<'a> {
    ghost Value = { List Line };

    ghost view = { λ found. found.lines.items };
}

impl<'a> FoundLines<'a> {
    /// Creates `FoundLines` from a vector of lines. Does not allocate.
    pub fn from_vec(lines: Vec<Line<'a>>) -> FoundLines<'a>
        ensures { result ≡ lines.entry.items }
    {
        FoundLines { lines }
    }

    /// Returns the lines as a vector. Does not allocate.
    pub fn into_vec(self) -> Vec<Line<'a>>
        ensures { result.items ≡ self.entry }
    {
        self.lines
    }

    /// Returns the lines as a slice.
    pub fn as_slice(&self) -> &[Line<'a>]
        ensures { result.now ≡ self.now }
    {
        self.lines.as_slice()
    }

    // Creates `FoundLines` with one line, or with none.
    pub(crate) fn from_option(
        alloc: Global,
        line: Option<Line<'a>>,
    ) -> Result<FoundLines<'a>, AllocError>
        ensures { IfOk result (λ lines. lines ≡ option_to_list line.entry) }
    {
        let mut lines = Vec::new(alloc);
        if let Some(line) = line {
            lines.push(line)?;
        }
        Ok(FoundLines { lines })
    }
}
