//! Info of an output: RFC 9559, section 5.1.2 (Info).

ghost use Rattle.std.specs.Prelude.{◌≡◌, IfOk};
ghost use Rattle.mkv_schema.specs.declared.ids.TheConstants.{INFO as INFO_ID};
ghost use Rattle.file_format.specs.Info.{scale_of};
ghost use Rattle.output_model.specs.Sound.{IsRecord};
ghost use Rattle.output_records.specs.Info.{output_info};

use ebml_tree::{Tree, empty, text_leaf, uint_leaf};
use mkv_schema::ids::{INFO, MUXING_APP, TIMESTAMP_SCALE, TITLE, WRITING_APP};
use std::alloc::{AllocError, Global};

/// Name and version of the program, for MuxingApp and WritingApp
const APPLICATION: &str = "mkvsuite 1";

/// Returns the Info of an output of `merge` or `generate` with `scale` nanoseconds per tick and the title `title`,
/// which isn't written if it is empty. A Duration is added later.
pub fn info_of(alloc: Global, scale: u64, title: &str) -> Result<Tree, AllocError>
    ensures exact { IfOk result (λ info. info ≡ output_info scale title.now) }
    ensures sound { IfOk result (IsRecord INFO_ID) }
    ensures scale { IfOk result (λ info. scale_of info ≡ scale) }
{
    let mut info = empty(alloc, INFO, 0)?;
    info.push(uint_leaf(alloc, TIMESTAMP_SCALE, scale)?)?;
    if !title.is_empty() {
        info.push(text_leaf(alloc, TITLE, title)?)?;
    }
    info.push(text_leaf(alloc, MUXING_APP, APPLICATION)?)?;
    info.push(text_leaf(alloc, WRITING_APP, APPLICATION)?)?;
    Ok(info)
}
