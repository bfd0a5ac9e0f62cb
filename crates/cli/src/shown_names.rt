use std::alloc::{AllocError, Global};

/// Returns a file's name as it is shown: a name that is empty or has a control character is put between quotes and escaped. The
/// only error is that memory runs out.
pub fn shown_name(alloc: Global, name: &str) -> Result<String, AllocError> {
    if name.is_empty() || name.chars().any(|c| c.is_control()) {
        return format!(in alloc; "{name:?}");
    }
    String::from_str(alloc, name)
}
