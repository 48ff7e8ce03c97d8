use std::alloc::{AllocError, Global};

// Makes room for so many bytes. If memory is refused it is tried twice more.
fn reserve(written: &mut Vec<u8>, bytes: usize) -> Result<(), AllocError> {
    for _ in 0..2u64 {
        if written.reserve(bytes).is_ok() {
            return Ok(());
        }
    }
    written.reserve(bytes)
}

/// An empty output with room for so many bytes, so that writing them grows nothing of it.
///
/// If memory is refused it is tried twice more.
pub fn with_room(alloc: Global, bytes: usize) -> Result<Vec<u8>, AllocError> {
    let mut written = Vec::new(alloc);
    reserve(&mut written, bytes)?;
    Ok(written)
}
