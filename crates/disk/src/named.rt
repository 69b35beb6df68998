ghost use Rattle.std.specs.Prelude.{◌≡◌, ◌∷◌, ◌++◌, [], if◌then◌else◌, is_ok, map, string_bytes};

use std::alloc::AllocError;

/// Adds a name after the others. Where memory runs out, none is added.
pub(crate) fn add_name(names: &mut Vec<String>, name: &str) -> Result<(), AllocError>
    ensures { map string_bytes names.new.items ≡ (if is_ok result
        then map string_bytes names.old.items ++ name.now ∷ []
        else map string_bytes names.old.items) }
{
    let name = String::from_str(*names.allocator(), name)?;
    match names.push(name) {
        Ok(()) => Ok(()),
        Err(_) => Err(AllocError),
    }
}
