//! The specification over which drivers are drawn.

use std::alloc::{AllocError, Global};
use tm_inst::read_specification;
use tm_syntax::design::Design;
use tm_syntax::fault::FrontError;

/// The specification over which drivers are drawn.
const SPECIFICATION: &[u8] = b"template main
bool a = false;
bool b = false;
bool c = false;
task controllable set() { b = true; }
task controllable clear() { b = false; }
process p { ...; ...; }
endtemplate
";

/// The design of the specification.
pub fn design(alloc: Global) -> Result<Option<Design>, AllocError> {
    match read_specification(alloc, SPECIFICATION) {
        Ok(read) => Ok(Some(read.design)),
        Err(FrontError::Faulty(_)) => Ok(None),
        Err(FrontError::Memory) => Err(AllocError),
    }
}
