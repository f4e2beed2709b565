//! Names that stand for texts in the rows of a table.

use anyhow::{Context, Result};
use std::alloc::{AllocError, Global};

/// The names, and the texts that they stand for.
pub(crate) type Names = Vec<(String, String)>;

/// Puts the texts that names stand for in their places.
fn put_names(alloc: Global, text: &mut String, names: &Names) -> Result<(), AllocError> {
    for (name, piece) in names.iter().rev() {
        *text = text.as_str().replace(alloc, name.as_str(), piece.as_str())?;
    }
    Ok(())
}

/// The text of a row, with its line feeds.
pub(crate) fn spelled(alloc: Global, row: &str, names: &Names) -> Result<String, AllocError> {
    let mut text = String::from_str(alloc, row)?;
    put_names(alloc, &mut text, names)?;
    text.as_str().replace(alloc, "|", "\n")
}

/// Makes the first word stand for the text behind it.
pub(crate) fn add_name(alloc: Global, names: &mut Names, line: &str) -> Result<()> {
    let (name, piece) = line.split_once(' ').unwrap_or((line, ""));
    let name = String::from_str(alloc, name)?;
    let piece = String::from_str(alloc, piece)?;
    names.push((name, piece)).context("adding a name")
}
