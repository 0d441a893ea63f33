//! Where a part of a certificate's value stands.
ghost use Rattle.std.specs.Prelude.{◌≡◌, ◌++◌, IfOk, OnOk, string_bytes};
ghost use Rattle.tm_cert.specs.Path.{path_text};

use std::alloc::{AllocError, Global};
use tm_base::Name;

/// The way to a part: a key of the certificate, a key of an object in it, or a place in a list.
#[derive(Clone, Copy)]
pub(crate) enum Path<'a> {
    Key(&'a str),
    Member(&'a Path<'a>, &'a str),
    Index(&'a Path<'a>, usize),
}

impl Path<'_> {
    /// The path as it is written in a refusal.
    pub(crate) fn name(&self, alloc: Global) -> Result<Name, AllocError>
        ensures { IfOk result (λ name. name ≡ path_text self.now) }
    {
        let mut text = String::new(alloc);
        write_path(self, &mut text)?;
        Name::from_bytes(alloc, text.as_bytes())
    }
}

/// Writes a path behind a text.
fn write_path(path: &Path<'_>, text: &mut String) -> Result<(), AllocError>
    ensures { OnOk result (string_bytes text.new ≡ string_bytes text.old ++ path_text path.now) }
{
    match path {
        Path::Key(key) => text.push_str(key),
        Path::Member(parent, key) => {
            write_path(parent, text)?;
            text.push_str(".")?;
            text.push_str(key)
        }
        Path::Index(parent, index) => {
            write_path(parent, text)?;
            write!(text, "[{index}]")
        }
    }
}
