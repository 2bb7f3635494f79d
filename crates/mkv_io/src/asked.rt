//! Names of the files that a run asked to open or to make.

ghost use Rattle.std.specs.Prelude.{◌≡◌, ◌<◌, length, vec_capacity, IfOk, OnOk};

use crate::octets::Text;
use std::alloc::{AllocError, Global};

/// Name that a file was opened or created under.
#[derive(Debug, Drop)]
pub enum Asked {
    Opened(Text),
    Made(Text),
}

/// Returns a copy of `name`, and reserves room in `asked` for one more entry. `open_file` and `create` of each file
/// system do this before they open or create the file, so that the name can be noted without allocating.
pub fn room_for_name(asked: &mut Vec<Asked>, alloc: Global, name: &str) -> Result<Text, AllocError>
    ensures same { asked.new.items ≡ asked.old.items }
    ensures room { OnOk result (length asked.new.items < vec_capacity asked.new) }
    ensures name { IfOk result (λ text. text ≡ name.now) }
{
    let mut text = Text::new(alloc);
    text.append(name)?;
    asked.reserve(1)?;
    Ok(text)
}
