//! The paths of what instances hold.
ghost use Rattle.std.specs.Prelude.{◌≡◌, ◌++◌, ◌∷◌, IfOk};
ghost use Rattle.std.specs.Fmt.{decimal};
ghost use Rattle.tm_syntax.specs.Design.{member_path};

use itoa::Buffer;
use std::alloc::{AllocError, Global};
use tm_base::Name;

// The path of what an instance holds, by the instance's own path and a name; the path of `main` is empty.
pub(crate) fn member_name(alloc: Global, base: &[u8], name: &[u8]) -> Result<Name, AllocError>
    ensures { IfOk result (λ path. path ≡ member_path base.now name.now) }
{
    if base.is_empty() {
        Name::from_bytes(alloc, name)
    } else {
        below_name(alloc, base, name)
    }
}

// A path and a name, with a dot between.
pub(crate) fn below_name(alloc: Global, base: &[u8], name: &[u8]) -> Result<Name, AllocError>
    ensures { IfOk result (λ path. path ≡ base.now ++ 46 ∷ name.now) }
{
    let mut path = Vec::from_slice(alloc, base)?;
    path.push(b'.')?;
    path.extend_from_slice(name)?;
    Name::from_bytes(alloc, path.as_slice())
}

// The path of an element of an array.
pub(crate) fn element_name(alloc: Global, base: &[u8], index: u64) -> Result<Name, AllocError>
    ensures { IfOk result (λ path. path ≡ base.now ++ 46 ∷ decimal index) }
{
    below_name(alloc, base, Buffer::new().format(index).as_bytes())
}
