//! Values of options, by their form.

ghost use Rattle.std.specs.Prelude.{◌≡◌, option_map, IfOk};
ghost use Rattle.std.specs.Char.{is_ascii_lowercase};
ghost use Rattle.std.specs.List.{list_all};
ghost use Rattle.word_values.specs.Answers.{ReadsValue};
ghost use Rattle.word_values.specs.Values as spec;

use crate::lists::{ids, order, split, uuids};
use crate::numbers::{cut_text, delay};
use crate::usage::ValueEnd;
use mkv_io::{List, Text};
use requests::{CueWord, Select, SplitWords, is_language_tag, number};
use std::alloc::{AllocError, Global};

/// Form of an option's value. A value for a track begins with the track's ID and `:`.
#[derive(Clone, Copy, Debug, PartialEq, Eq)]
pub enum ValueForm {
    /// No argument follows; the option itself is the value.
    Flag,
    /// No argument follows; all tracks of the type are excluded.
    Exclusion,
    /// Name of a file.
    Name,
    /// Any text without a zero byte.
    Text,
    /// Text of at least one byte, without a zero byte.
    FullText,
    /// Media type: 1 to 127 printable ASCII characters.
    MediaType,
    /// Nanoseconds per tick, 1000 to 10000000.
    Scale,
    /// Blocks of a Cluster, 1 to 65535, or milliseconds, 100 to 32000, followed by `ms`.
    Length,
    /// Rule for splitting the output.
    Split,
    /// Segment identifiers of 32 hexadecimal digits.
    Uuids,
    /// Tracks in their order, each as the number of its input, `:` and its ID.
    Order,
    /// Track IDs, with `!` before them for all others.
    Ids,
    /// A track and milliseconds.
    TrackDelay,
    /// A track and a text without a zero byte.
    TrackText,
    /// A track and three lower-case letters.
    TrackLanguage,
    /// A track and a language tag.
    TrackLanguageTag,
    /// Only a track, or a track and 0 or 1.
    TrackFlag,
    /// A track and `none`, `iframes` or `all`.
    TrackCues,
    /// A track and the name of a file.
    TrackFile,
}

/// Value of an option, as it was read. Values for a track begin with its ID, counted from 0.
#[derive(Drop)]
pub enum Value {
    /// The option is given; it has no argument.
    Flag,
    /// Name of a file.
    File(Text),
    Text(Text),
    Scale(u64),
    Blocks(u32),
    /// Duration of a Cluster in nanoseconds.
    Span(u64),
    Split(SplitWords),
    Uuids(List<u128>),
    /// Tracks in their order, each with the index of its input, and its own in that input, both counted from 0.
    Order(List<(u64, u64)>),
    Tracks(Select),
    /// A track, and its delay in nanoseconds.
    TrackDelay(u64, i64),
    TrackText(u64, Text),
    TrackLanguage(u64, Text),
    TrackLanguageTag(u64, Text),
    TrackFlag(u64, bool),
    TrackCues(u64, CueWord),
    /// A track and the name of a file.
    TrackFile(u64, Text),
}

/// Returns the value of an option of the form `form` that takes no argument, or None if the form needs one. The parser
/// of `merge` asks before it reads the next argument.
pub fn flag_of(form: ValueForm) -> Option<Value>
    ensures { result ≡ spec.flag_of form }
{
    match form {
        ValueForm::Flag => Some(Value::Flag),
        ValueForm::Exclusion => Some(Value::Tracks(Select::Off)),
        _ => None,
    }
}

/// Reads the argument `word` as a value of the form `form`, for each option of `merge` that has one. Fails with `Bad`
/// if it doesn't have the form or is out of range.
#[tactic(auto, unfolding(crate::specs::Values::value_of))]
pub fn value_of(alloc: Global, form: ValueForm, word: &str) -> Result<Value, ValueEnd>
    ensures { ReadsValue result (spec.value_of form word.now) }
{
    match form {
        ValueForm::Flag | ValueForm::Exclusion => Err(ValueEnd::Bad),
        ValueForm::Name => Ok(Value::File(name(alloc, word)?)),
        ValueForm::Text => Ok(Value::Text(text(alloc, word)?)),
        ValueForm::FullText => Ok(Value::Text(full_text(alloc, word)?)),
        ValueForm::MediaType => Ok(Value::Text(media_type(alloc, word)?)),
        ValueForm::Scale => scale(word.as_bytes()).ok_or(ValueEnd::Bad),
        ValueForm::Length => cluster_length(word.as_bytes()).ok_or(ValueEnd::Bad),
        ValueForm::Split => Ok(Value::Split(split(alloc, word)?)),
        ValueForm::Uuids => Ok(Value::Uuids(uuids(alloc, word.as_bytes())?)),
        ValueForm::Order => Ok(Value::Order(order(alloc, word.as_bytes())?)),
        ValueForm::Ids => Ok(Value::Tracks(ids(alloc, word.as_bytes())?)),
        ValueForm::TrackFlag => track_flag(word).ok_or(ValueEnd::Bad),
        ValueForm::TrackDelay
        | ValueForm::TrackText
        | ValueForm::TrackLanguage
        | ValueForm::TrackLanguageTag
        | ValueForm::TrackCues
        | ValueForm::TrackFile => {
            let (id, rest) = track_and_rest(word).ok_or(ValueEnd::Bad)?;
            track_value(alloc, form, id, rest)
        }
    }
}

/// Reads `rest`, the part of an argument after the track ID and `:`, for `value_of`. It is a value of the form `form`
/// for the track `id`, from 0. Fails with `Bad` if it doesn't have the form.
#[tactic(auto, unfolding(crate::specs::Values::track_value))]
fn track_value(alloc: Global, form: ValueForm, id: u64, rest: &str) -> Result<Value, ValueEnd>
    ensures { ReadsValue result (spec.track_value form id rest.now) }
{
    match form {
        ValueForm::TrackDelay => {
            let time = delay(rest.as_bytes()).ok_or(ValueEnd::Bad)?;
            Ok(Value::TrackDelay(id, time))
        }
        ValueForm::TrackText => Ok(Value::TrackText(id, text(alloc, rest)?)),
        ValueForm::TrackLanguage => Ok(Value::TrackLanguage(id, language(alloc, rest)?)),
        ValueForm::TrackLanguageTag => {
            Ok(Value::TrackLanguageTag(id, language_tag(alloc, rest)?))
        }
        ValueForm::TrackCues => {
            let cues = cue_word(rest).ok_or(ValueEnd::Bad)?;
            Ok(Value::TrackCues(id, cues))
        }
        ValueForm::TrackFile => Ok(Value::TrackFile(id, name(alloc, rest)?)),
        _ => Err(ValueEnd::Bad),
    }
}

/// Splits the argument `word` at the first `:` into the track's number and the part after it, for an option of a track;
/// None if it doesn't begin so. Used by `value_of`, `track_flag` and others.
#[tactic(auto, unfolding(crate::specs::Values::track_and_rest))]
pub fn track_and_rest(word: &str) -> Option<(u64, &str)>
    ensures { option_map (λ p. (p.0, p.1.now)) result ≡ spec.track_and_rest word.now }
{
    let (id, rest) = cut_text(word, ':')?;
    let id = number(id.as_bytes())?;
    Some((id, rest))
}

/// Returns a copy of `word`, which may be any text: the name of a file in an option. Fails only if memory runs out.
pub fn name(alloc: Global, word: &str) -> Result<Text, AllocError>
    ensures { IfOk result (λ name. name ≡ word.now) }
{
    let mut name = Text::new(alloc);
    name.append(word)?;
    Ok(name)
}

/// Returns a copy of `word`, a title or a track's name, for `value_of` and `track_value`; fails with `Bad` if it has a
/// zero byte.
#[tactic(auto, unfolding(crate::specs::Values::text))]
fn text(alloc: Global, word: &str) -> Result<Text, ValueEnd>
    ensures { ReadsValue result (spec.text word.now) }
{
    if word.as_bytes().contains(&0) {
        return Err(ValueEnd::Bad);
    }
    Ok(name(alloc, word)?)
}

/// Returns a copy of `word`, the name of an attached file, for `value_of`; fails with `Bad` if it is empty or has a zero
/// byte.
#[tactic(auto, unfolding(crate::specs::Values::full_text))]
fn full_text(alloc: Global, word: &str) -> Result<Text, ValueEnd>
    ensures { ReadsValue result (spec.full_text word.now) }
{
    if word.is_empty() {
        return Err(ValueEnd::Bad);
    }
    text(alloc, word)
}

/// Returns a copy of `word`, a media type, for `value_of`; fails with `Bad` unless it has 1 to 127 printable ASCII
/// characters.
#[tactic(auto, unfolding(crate::specs::Values::media_type))]
fn media_type(alloc: Global, word: &str) -> Result<Text, ValueEnd>
    ensures { ReadsValue result (spec.media_type word.now) }
{
    if !is_media_type(word.as_bytes()) {
        return Err(ValueEnd::Bad);
    }
    Ok(name(alloc, word)?)
}

/// Checks whether `word` can be a media type: it has 1 to 127 printable ASCII characters. For `media_type`.
fn is_media_type(word: &[u8]) -> bool
    ensures { result ≡ spec.is_media_type word.now }
{
    1 <= word.len() && word.len() <= 127 && are_printable(word)
}

/// Checks whether all bytes of `word` are printable ASCII characters, for `is_media_type`.
fn are_printable(word: &[u8]) -> bool
    ensures { result ≡ list_all spec.is_printable word.now }
{
    word.iter().all(|b| is_printable(*b))
}

/// Checks whether `octet` is a printable ASCII character, from a space to `~`, for `are_printable`.
fn is_printable(octet: u8) -> bool
    ensures { result ≡ spec.is_printable octet }
{
    b' ' <= octet && octet <= b'~'
}

/// Returns a copy of `word`, a language code, for `track_value`; fails with `Bad` unless it has three lower-case
/// letters.
#[tactic(auto, unfolding(crate::specs::Values::language))]
fn language(alloc: Global, word: &str) -> Result<Text, ValueEnd>
    ensures { ReadsValue result (spec.language word.now) }
{
    if !is_language(word.as_bytes()) {
        return Err(ValueEnd::Bad);
    }
    Ok(name(alloc, word)?)
}

/// Returns a copy of `word`, a language tag, for `track_value`; fails with `Bad` unless it has the form of one.
#[tactic(auto, unfolding(crate::specs::Values::language_tag))]
fn language_tag(alloc: Global, word: &str) -> Result<Text, ValueEnd>
    ensures { ReadsValue result (spec.language_tag word.now) }
{
    if !is_language_tag(word.as_bytes()) {
        return Err(ValueEnd::Bad);
    }
    Ok(name(alloc, word)?)
}

/// Checks whether `word` is a language code of three lower-case letters, for `language`.
fn is_language(word: &[u8]) -> bool
    ensures { result ≡ spec.is_language word.now }
{
    word.len() == 3 && are_lowercase(word)
}

/// Checks whether all bytes of `word` are lower-case letters of ASCII, for `is_language`.
fn are_lowercase(word: &[u8]) -> bool
    ensures { result ≡ list_all is_ascii_lowercase word.now }
{
    word.iter().all(|b| b.is_ascii_lowercase())
}

/// Reads `word`, the value of `--timestamp-scale`: 1000 to 10000000 nanoseconds per tick. It is None for any other.
/// `value_of` calls it.
#[tactic(auto, unfolding(crate::specs::Values::scale))]
fn scale(word: &[u8]) -> Option<Value>
    ensures { result ≡ spec.scale word.now }
{
    let scale = number(word)?;
    if 1000 <= scale && scale <= 10_000_000 {
        Some(Value::Scale(scale))
    } else {
        None
    }
}

/// Reads `word`, the value of `--cluster-length`: 1 to 65535 blocks, or 100 to 32000 milliseconds followed by `ms`,
/// which become nanoseconds. It is None for any other. `value_of` calls it.
#[tactic(auto, unfolding(crate::specs::Values::cluster_length))]
fn cluster_length(word: &[u8]) -> Option<Value>
    ensures { result ≡ spec.cluster_length word.now }
{
    if let [front @ .., b'm', b's'] = word {
        let span = number(front)?;
        return if 100 <= span && span <= 32_000 {
            Some(Value::Span(span * 1_000_000))
        } else {
            None
        };
    }
    let blocks = number(word)?;
    if 1 <= blocks && blocks <= 65_535 {
        Some(Value::Blocks(blocks as u32))
    } else {
        None
    }
}

/// Reads `word`, the value of a track's flag, for `value_of`: only a track, which means 1, or a track and 0 or 1. It is
/// None for any other.
#[tactic(auto, unfolding(crate::specs::Values::track_flag))]
fn track_flag(word: &str) -> Option<Value>
    ensures { result ≡ spec.track_flag word.now }
{
    match track_and_rest(word) {
        Some((id, "0")) => Some(Value::TrackFlag(id, false)),
        Some((id, "1")) => Some(Value::TrackFlag(id, true)),
        Some(_) => None,
        None => {
            let id = number(word.as_bytes())?;
            Some(Value::TrackFlag(id, true))
        }
    }
}

/// Returns which blocks of a track get a cue point, by `word`, the value of `--cues` after the track; None for any
/// other. `track_value` calls it.
#[tactic(auto, unfolding(crate::specs::Values::cue_word))]
fn cue_word(word: &str) -> Option<CueWord>
    ensures { result ≡ spec.cue_word word.now }
{
    match word {
        "none" => Some(CueWord::Never),
        "iframes" => Some(CueWord::Key),
        "all" => Some(CueWord::All),
        _ => None,
    }
}
