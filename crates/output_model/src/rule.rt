//! Rules for the blocks with a cue point.

ghost use Rattle.std.specs.Prelude.{◌≡◌};
ghost use Rattle.output_model.specs.Cued.{is_cue_by};

/// Rule for the blocks of an output track that get a cue point.
#[derive(Clone, Copy, Debug, PartialEq, Eq)]
pub enum CueRule {
    /// No block.
    Never,
    /// Only keyframes.
    Key,
    /// All blocks.
    All,
}

impl CueRule {
    /// Checks whether a block of the rule's output track gets a cue point; `key` is true for a keyframe. `merge` does
    /// this for each block that it writes.
    pub fn takes(&self, key: bool) -> bool
        ensures { result ≡ is_cue_by self.now key }
    {
        match self {
            CueRule::Never => false,
            CueRule::Key => key,
            CueRule::All => true,
        }
    }
}
