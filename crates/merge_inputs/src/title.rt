//! Title of a file: RFC 9559, section 5.1.2 (Info), Title.

ghost use Rattle.std.specs.Prelude.{◌≡◌, IfOk, IfSome};
ghost use Rattle.meta_records.specs.Records.{IsGoodInfo};
ghost use Rattle.merge_inputs.specs.Title.{title_of_info};

use ebml_tree::{Tree, text_of};
use mkv_io::Text;
use mkv_schema::ids::TITLE;
use std::alloc::{AllocError, Global};

/// Returns the title in `info`, the first Info of a file, or an empty text if absent. Used by `read_file`.
pub fn title_of(alloc: Global, info: &Option<Tree>) -> Result<Text, AllocError>
    requires { IfSome info.now IsGoodInfo }
    ensures { IfOk result (λ title. title ≡ title_of_info info.now) }
{
    let Some(info) = info else {
        return Ok(Text::new(alloc));
    };
    match info.child(TITLE) {
        Some(title) => Ok(Text::from_string(String::from_str(alloc, text_of(title))?)),
        None => Ok(Text::new(alloc)),
    }
}
