//! The lines of `--help` and `--version`.

ghost use Rattle.std.specs.Prelude.{◌≡◌, length, map, nat_le};
ghost use Rattle.std.specs.List.{AllPass};
ghost use Rattle.mkv_args.specs.Help as spec;

use crate::commands::Verb;
use crate::pages::{
    EXPLAIN_PAGE, EXTRACT_PAGE, GENERATE_PAGE, INFO_PAGE, MERGE_PAGE, OVERVIEW, PROPEDIT_PAGE,
    RECOVER_PAGE, REINDEX_PAGE,
};

/// Returns the line that `--version` prints: the name of the program and its version. Used by `version`.
pub fn version_line() -> &'static str
    ensures { result.now ≡ spec.version_line }
{
    "mkvsuite 0.1.0"
}

/// Returns the lines that `--help` prints: the page of the command `about`, or the overview of all commands if it is
/// None.
pub fn usage_lines(about: Option<Verb>) -> &'static [&'static str]
    ensures exact { map (λ line. line.now) result.now ≡ spec.usage_lines about }
    ensures narrow { AllPass (λ line. nat_le (length line) 79) (map (λ line. line.now) result.now) }
{
    lines_of(about)
}

// Returns the lines of `--help`: the page of the command `about`, or the overview of all commands if it is None. Used
// by `usage_lines`.
#[tactic(auto, unfolding(crate::specs::Help::usage_lines))]
fn lines_of(about: Option<Verb>) -> &'static [&'static str]
    ensures { map (λ line. line.now) result.now ≡ spec.usage_lines about }
{
    match about {
        Some(Verb::Info) => &INFO_PAGE,
        Some(Verb::Merge) => &MERGE_PAGE,
        Some(Verb::Extract) => &EXTRACT_PAGE,
        Some(Verb::Propedit) => &PROPEDIT_PAGE,
        Some(Verb::Recover) => &RECOVER_PAGE,
        Some(Verb::Reindex) => &REINDEX_PAGE,
        Some(Verb::Generate) => &GENERATE_PAGE,
        Some(Verb::Explain) => &EXPLAIN_PAGE,
        Some(Verb::Help | Verb::Version) | None => &OVERVIEW,
    }
}
