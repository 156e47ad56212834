//! The folder of a FILE that isn't opened.
ghost use Rattle.std.specs.Prelude.{◌≡◌, IfSome, Some};
ghost use Rattle.std.specs.Path.{path_parent};

use std::fs::{self, Files};
use std::path::Path;

/// The folder that a path names before its last part, where the system says that there is none.
pub(crate) fn missing_folder<'a>(rt: &impl Files, path: &'a str) -> Option<&'a str>
    ensures { IfSome result (λ folder. path_parent path.now ≡ Some folder.now) }
{
    let folder = Path::new(path).parent()?.as_str();
    match fs::exists(rt, folder) {
        Ok(false) if !folder.is_empty() => Some(folder),
        _ => None,
    }
}
