//! The operands among the arguments of a program.

use std::alloc::{AllocError, Global};

/// Returns the operands among these words, or `None` if one is an option: it begins with `-`, and is not `-` alone. After a
/// word `--` all are operands.
pub fn operands_of<'a>(
    alloc: Global,
    words: &'a [String],
) -> Result<Option<Vec<&'a str>>, AllocError> {
    let mut operands = Vec::new(alloc);
    let mut has_ended = false;
    for word in words {
        let word = word.as_str();
        if has_ended || word == "-" || !word.starts_with('-') {
            operands.push(word)?;
        } else if word == "--" {
            has_ended = true;
        } else {
            return Ok(None);
        }
    }
    Ok(Some(operands))
}
