//! The entries of a case file: keys, arguments and contents.

use crate::trouble::Trouble;
use std::alloc::Global;

/// A key of a case file with its argument, and the lines of the content after it.
#[derive(Drop)]
pub struct Entry<'a> {
    /// The line of the key, from 1.
    pub line: usize,
    pub key: &'a str,
    /// What follows the key and one blank, to the end of the line.
    pub argument: &'a str,
    pub block: Vec<&'a str>,
}

impl Entry<'_> {
    /// That this entry has another form than the format.
    pub fn flaw(&self, what: &'static str) -> Trouble {
        Trouble::Malformed {
            line: self.line,
            what,
        }
    }
}

/// The entries of a case file. Empty lines and lines that begin with `#` are comments.
pub fn entries(alloc: Global, text: &str) -> Result<Vec<Entry<'_>>, Trouble> {
    let mut entries: Vec<Entry<'_>> = Vec::new(alloc);
    match add_entries(alloc, text, &mut entries) {
        Ok(()) => Ok(entries),
        Err(trouble) => {
            drop(entries);
            Err(trouble)
        }
    }
}

/// Adds the entries of a case file.
fn add_entries<'a>(
    alloc: Global,
    text: &'a str,
    entries: &mut Vec<Entry<'a>>,
) -> Result<(), Trouble> {
    for (place, line) in text.lines().enumerate() {
        add_line(alloc, place.saturating_add(1), line, entries)?;
    }
    Ok(())
}

/// Adds what the line with this number says.
fn add_line<'a>(
    alloc: Global,
    number: usize,
    line: &'a str,
    entries: &mut Vec<Entry<'a>>,
) -> Result<(), Trouble> {
    if line.is_empty() || line.starts_with('#') {
        return Ok(());
    }
    let Some(content) = content_in(line) else {
        entries.push(entry_in(alloc, number, line))?;
        return Ok(());
    };
    let Some(entry) = entries.last_mut() else {
        return Err(Trouble::Malformed {
            line: number,
            what: "content before the first key",
        });
    };
    entry.block.push(content)?;
    Ok(())
}

/// The content that a line gives: what follows `| `. A bar alone gives an empty line.
fn content_in(line: &str) -> Option<&str> {
    let content = line.strip_prefix('|')?;
    Some(content.strip_prefix(' ').unwrap_or(content))
}

/// The entry of a key's line, without content so far.
fn entry_in(alloc: Global, number: usize, line: &str) -> Entry<'_> {
    let (key, argument) = line.split_once(' ').unwrap_or((line, ""));
    Entry {
        line: number,
        key,
        argument,
        block: Vec::new(alloc),
    }
}
