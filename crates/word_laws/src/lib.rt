#![tactic(auto)]

//! Laws on command lines: the canonical command line of a command is read as that command, and a title that is read is
//! a text. They are statements for a reader; no command calls them.

ghost use Rattle.word_laws.specs.Laws.{PlainMergeIsRead, ShortOutputIsRead, SpelledIsRead, TitlesAreTexts};

/// States that the canonical command line of a command, `spelled`, is read as that command. The command must keep its
/// limits. Nothing calls the law.
pub fn spelled_words_are_read()
    ensures { SpelledIsRead }
{}

/// States that a title that the command line gives to a merge has no zero byte. The laws on a repeated merge call it.
/// Used by `sources_are_plain` of `remerge_laws`.
pub fn titles_are_texts()
    ensures { TitlesAreTexts }
{}

/// States that `merge -o OUT ..` is read as `merge --output OUT ..`. Nothing calls the law.
pub fn short_output_is_read()
    ensures { ShortOutputIsRead }
{}

/// States that `merge -o OUT FILE` is read as a merge of FILE to OUT without options. FILE must not look like an
/// option. Nothing calls the law.
pub fn plain_merge_is_read()
    ensures { PlainMergeIsRead }
{}
