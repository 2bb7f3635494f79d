#![tactic(auto)]

//! Laws on `explain`: each word of a message has a page of its own. They are statements for a reader; no command calls
//! them. The functions do nothing; their contracts are the laws.

ghost use Rattle.explain_laws.specs.Messages.{NamesDiffer, WordsHavePages};

/// States that each word of a message that a user may look up has a page in `explain`. A law for a reader; no command
/// calls it.
pub fn each_word_has_a_page()
    ensures { WordsHavePages }
{}

/// States that no two pages of `explain` have the same name, in upper or lower case, so that a name finds one page. A
/// law for a reader; no command calls it.
pub fn names_differ()
    ensures { NamesDiffer }
{}
