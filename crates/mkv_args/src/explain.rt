//! `explain`: the words of messages, with their meaning, cause and remedy.

ghost use Rattle.std.specs.Prelude.{◌≡◌, map, option_map};
ghost use Rattle.word_values.specs.Answers.{Tells};
ghost use Rattle.word_values.specs.Place.{texts};
ghost use Rattle.mkv_args.specs.Explain as spec;

use crate::command::Command;
use crate::topics::{
    DAMAGE_TOPICS, EDIT_TOPICS, GENERAL_TOPICS, REFUSAL_TOPICS, RESULT_TOPICS, TOPIC_LIST,
    WARNING_TOPICS, WORD_TOPICS,
};
use std::alloc::Global;
use word_values::{ArgsEnd, Why, end_at, name, refused, word_at};

/// Word of a message, with the lines of its page.
type Topic = (&'static str, &'static [&'static str]);

/// Returns the lines that the command `explain` prints: the page of the word `name`, or the list of all words that have
/// a page if it is None.
pub fn explained(name: Option<&str>) -> &'static [&'static str]
    ensures { map (λ line. line.now) result.now ≡ spec.explained (option_map (λ n. n.now) name.entry) }
{
    match name {
        None => topic_list(),
        Some(name) => page_of(name).unwrap_or(&[]),
    }
}

/// Returns the lines of the list of all words that `explain` knows. Used by `explained`.
#[tactic(auto, unfolding(crate::specs::Explain::topic_list))]
fn topic_list() -> &'static [&'static str]
    ensures { map (λ line. line.now) result.now ≡ spec.topic_list }
{
    &TOPIC_LIST
}

/// Returns the page of the word `name`, in upper or lower case, or None if it has none. Used by `explain`.
fn page_of(name: &str) -> Option<&'static [&'static str]>
    ensures { option_map spec.lines_of result ≡ spec.page_of name.now }
{
    page_among(word_topics(), name)
        .or(page_among(refusal_topics(), name))
        .or(page_among(edit_topics(), name))
        .or(page_among(damage_topics(), name))
        .or(page_among(warning_topics(), name))
        .or(page_among(result_topics(), name))
        .or(page_among(general_topics(), name))
}

/// Returns the page of the word `name`, in upper or lower case, if one of `topics` has this name, or None. Used by
/// `page_of`.
fn page_among(topics: &[Topic], name: &str) -> Option<&'static [&'static str]>
    ensures { option_map spec.lines_of result ≡ spec.page_among (map spec.shown topics.now) name.now }
{
    for topic in topics {
        if is_same_name(topic.0, name) {
            return Some(topic.1);
        }
    }
    None
}

/// Checks whether `a` and `b` are equal, except for the case of ASCII letters. Used by `page_among`.
fn is_same_name(a: &str, b: &str) -> bool
    ensures { result ≡ spec.is_same_name a.now b.now }
{
    a.eq_ignore_ascii_case(b)
}

/// Returns the topics of the group 'command line'. Each group has a function, since the prover refuses one for all.
/// Used by `page_of`.
#[tactic(auto, unfolding(crate::specs::Explain::word_topics))]
fn word_topics() -> &'static [Topic]
    ensures { map spec.shown result.now ≡ spec.word_topics }
{
    &WORD_TOPICS
}

/// Returns the topics of the group 'refused', reasons why a run ends before it writes an output. Used by `page_of`.
#[tactic(auto, unfolding(crate::specs::Explain::refusal_topics))]
fn refusal_topics() -> &'static [Topic]
    ensures { map spec.shown result.now ≡ spec.refusal_topics }
{
    &REFUSAL_TOPICS
}

/// Returns the topics of the group 'edits', reasons why an edit or a new index is refused. Used by `page_of`.
#[tactic(auto, unfolding(crate::specs::Explain::edit_topics))]
fn edit_topics() -> &'static [Topic]
    ensures { map spec.shown result.now ≡ spec.edit_topics }
{
    &EDIT_TOPICS
}

/// Returns the topics of the group 'in a file', kinds of damage. Used by `page_of`.
#[tactic(auto, unfolding(crate::specs::Explain::damage_topics))]
fn damage_topics() -> &'static [Topic]
    ensures { map spec.shown result.now ≡ spec.damage_topics }
{
    &DAMAGE_TOPICS
}

/// Returns the topics of the group 'warnings', words of warnings and notes. Used by `page_of`.
#[tactic(auto, unfolding(crate::specs::Explain::warning_topics))]
fn warning_topics() -> &'static [Topic]
    ensures { map spec.shown result.now ≡ spec.warning_topics }
{
    &WARNING_TOPICS
}

/// Returns the topics of the group 'results', words of messages about what a run has done. Used by `page_of`.
#[tactic(auto, unfolding(crate::specs::Explain::result_topics))]
fn result_topics() -> &'static [Topic]
    ensures { map spec.shown result.now ≡ spec.result_topics }
{
    &RESULT_TOPICS
}

/// Returns the topics of the group 'general', words that begin messages, and the exit status. Used by `page_of`.
#[tactic(auto, unfolding(crate::specs::Explain::general_topics))]
fn general_topics() -> &'static [Topic]
    ensures { map spec.shown result.now ≡ spec.general_topics }
{
    &GENERAL_TOPICS
}

/// Parses the command line `explain [NAME]`; `explain` is argument 0 of `words`. Fails if NAME has no page. Used by
/// `first_command`.
#[tactic(auto, unfolding(crate::specs::Explain::explain))]
pub(crate) fn explain(alloc: Global, words: &[String]) -> Result<Command, ArgsEnd>
    ensures { Tells result (spec.explain (texts words.now)) }
{
    let Some(word) = word_at(words, 1) else {
        return Ok(Command::Explain { name: None });
    };
    if page_of(word).is_none() {
        return refused(1, Why::BadValue);
    }
    end_at(words, 2)?;
    Ok(Command::Explain {
        name: Some(name(alloc, word)?),
    })
}
