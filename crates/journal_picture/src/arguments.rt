//! The task that the arguments ask for.

use journal_tools::operands_of;
use std::alloc::{AllocError, Global};

/// A use of the program.
#[derive(Drop)]
pub(crate) enum Task<'a> {
    Help,
    Version,
    /// Draws the journal in the files at these paths.
    Draw(Vec<&'a str>),
}

/// Returns the task that the arguments ask for, or `None` if they are wrong. The first argument is the program's name.
pub(crate) fn task_of(alloc: Global, arguments: &[String]) -> Result<Option<Task<'_>>, AllocError> {
    let words = match arguments.split_first() {
        Some((_, words)) => words,
        None => return Ok(None),
    };
    let mut options = words.iter().take_while(|word| word.as_str() != "--");
    if options.any(|word| is_one_of(word, "--help", "-h")) {
        return Ok(Some(Task::Help));
    }
    match words.first() {
        Some(first) if is_one_of(first, "--version", "-V") => Ok(Some(Task::Version)),
        Some(_) => Ok(operands_of(alloc, words)?.map(|paths| Task::Draw(paths))),
        None => Ok(None),
    }
}

fn is_one_of(word: &String, long: &str, short: &str) -> bool {
    word.as_str() == long || word.as_str() == short
}
