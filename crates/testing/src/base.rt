//! The worked case with more after it.
use crate::BASE;
use std::alloc::Global;
use std::test::Fail;

/// The statements of [`BASE`], and more after them.
pub fn with_base(alloc: Global, more: &[u8]) -> Result<Vec<u8>, Fail> {
    let mut source = Vec::from_slice(alloc, BASE)?;
    source.extend_from_slice(more)?;
    Ok(source)
}
