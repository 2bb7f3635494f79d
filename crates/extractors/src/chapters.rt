//! Extraction of chapters as text.

ghost use Rattle.std.specs.Prelude.{IfSome};
ghost use Rattle.mkv_schema.specs.declared.ids.TheConstants.{CHAPTERS as CHAPTERS_ID};
ghost use Rattle.tree_format.specs.Standing.{IsSoundOf};
ghost use Rattle.extractors.specs.Chapters.{chapters_text};
ghost use Rattle.extractors.specs.Whole.{WritesFile};

use crate::whole::write_file;
use ebml_tree::Tree;
use mkv_io::{Bytes, Files, RemuxEnd};
use srt_chapters::put_simple;
use std::alloc::Global;

/// Creates or replaces the file `name` with `chapters`, the source's first Chapters, as OGM simple chapters
/// (`CHAPTER01=..`), for `extract FILE chapters`. Without a Chapters (None) the file is empty. The file is closed in
/// any case.
pub fn write_chapters<F: Files>(
    alloc: Global,
    files: &mut F,
    chapters: &Option<Tree>,
    name: &str,
) -> Result<(), RemuxEnd>
    requires { IfSome chapters.now (IsSoundOf CHAPTERS_ID) }
    ensures { WritesFile F.Reads F.Files.own name.now (chapters_text chapters.now) 0 files.old files.new result }
{
    let mut text = Bytes::new(alloc);
    if let Some(chapters) = chapters {
        put_simple(chapters, &mut text)?;
    }
    write_file(files, name, text.as_slice())
}
