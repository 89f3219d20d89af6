//! The task that the arguments ask for.

use crate::help::{asks_for_help, asks_for_version};
use journal_tools::operands_of;
use std::alloc::{AllocError, Global};

/// A use of the program. All words are paths.
#[derive(Clone, Copy)]
pub(crate) enum Task<'a> {
    Help,
    Version,
    /// Checks one segment, and prints the base after it.
    Segment { settings: &'a str, segment: &'a str },
    /// Checks the journal in a folder, or that of each start in the folders below it.
    Folder { folder: &'a str },
    /// Joins the segments in a folder, of which another one has the bases that were printed.
    Join { folder: &'a str, reached: &'a str },
    /// Lists the objects that are held at the end of the journal in a folder.
    Held { folder: &'a str },
}

/// Returns the task that the arguments ask for, or `None` if they are wrong. The first argument is the program's name.
pub(crate) fn task_of(alloc: Global, arguments: &[String]) -> Result<Option<Task<'_>>, AllocError> {
    match arguments {
        [_, word] if asks_for_help(word) => return Ok(Some(Task::Help)),
        [_, word] if asks_for_version(word) => return Ok(Some(Task::Version)),
        _ => {}
    }
    let words = arguments.get(1..).unwrap_or(&[]);
    let option = words.first().map_or("", |word| word.as_str());
    let is_named = option == "--join" || option == "--held";
    let others = words.get(is_named as usize..).unwrap_or(&[]);
    let Some(operands) = operands_of(alloc, others)? else {
        return Ok(None);
    };
    Ok(match (is_named, option, operands.as_slice()) {
        (false, _, [settings, segment]) => Some(Task::Segment { settings, segment }),
        (false, _, [folder]) => Some(Task::Folder { folder }),
        (true, "--join", [folder, reached]) => Some(Task::Join { folder, reached }),
        (true, "--held", [folder]) => Some(Task::Held { folder }),
        _ => None,
    })
}
