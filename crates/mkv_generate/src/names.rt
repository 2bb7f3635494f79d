//! Names of the files that `generate` makes.

ghost use Rattle.std.specs.Prelude.{◌≡◌, ◌++◌, IfOk};
ghost use Rattle.mkv_generate.specs.Generate.{names_of};

use mkv_io::Text;
use std::alloc::{AllocError, Global};

/// Names of the two files, of the merged file, and the name that the split makes the names of its parts from.
#[derive(Drop)]
pub struct Names {
    pub pictures: Text,
    pub sounds: Text,
    pub both: Text,
    pub parts: Text,
}

// Returns the name `prefix` followed by `end`, for `Names::new`.
fn name_of(alloc: Global, prefix: &str, end: &str) -> Result<Text, AllocError>
    ensures { IfOk result (λ name. name ≡ prefix.now ++ end.now) }
{
    let mut name = Text::new(alloc);
    name.append(prefix)?;
    name.append(end)?;
    Ok(name)
}

impl Names {
    /// Returns the names for the prefix `prefix` on the command line of `generate`: `PREFIX-a.mkv` and so on.
    pub(crate) fn new(alloc: Global, prefix: &str) -> Result<Names, AllocError>
        ensures { IfOk result (λ names. names ≡ names_of prefix.now) }
    {
        Ok(Names {
            pictures: name_of(alloc, prefix, "-a.mkv")?,
            sounds: name_of(alloc, prefix, "-b.mkv")?,
            both: name_of(alloc, prefix, "-m.mkv")?,
            parts: name_of(alloc, prefix, "-s.mkv")?,
        })
    }
}
