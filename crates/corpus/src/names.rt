use std::alloc::{AllocError, Global};

/// The names in the text of a list, one a line. Lines that are empty or begin with `#` name nothing.
pub fn names_of(alloc: Global, list: &str) -> Result<Vec<&str>, AllocError> {
    list.lines()
        .filter(|line| !line.is_empty() && !line.starts_with('#'))
        .collect(alloc)
}
