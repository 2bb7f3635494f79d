#![tactic(auto)]

//! Laws on the command `generate`: its merges succeed, and its files hold their blocks. See RFC 9559, section 5.1
//! (Segment Element). They are statements for a reader; no command calls them.

ghost use Rattle.generate_laws.specs.Files.{FilesHoldBlocks};
ghost use Rattle.generate_laws.specs.Generated.{GenerateSucceeds};

/// States that both files that `generate` writes and merges are valid and hold their blocks. For at most 100,000
/// pictures. Nothing calls the law.
pub fn files_hold_blocks()
    ensures { FilesHoldBlocks }
{}

/// States that for at most 100,000 pictures both merges of `generate` succeed without a warning, and that all files
/// hold their blocks. The promise of the whole program calls it.
pub fn generate_succeeds()
    ensures { GenerateSucceeds }
{}
