//! Language tags of tracks: RFC 5646, section 2.1 (Syntax), without its grammar of subtags.

ghost use Rattle.std.specs.Prelude.{◌≡◌};
ghost use Rattle.std.specs.List.{list_all};
ghost use Rattle.requests.specs.Language as spec;

/// Checks whether `word` may be a language tag: it consists of 1 to 63 ASCII letters, digits and hyphens. Doesn't check
/// whether its subtags are registered. The options of `merge`, and `propedit` for language properties, use it.
pub fn is_language_tag(word: &[u8]) -> bool
    ensures { result ≡ spec.is_language_tag word.now }
{
    1 <= word.len() && word.len() <= 63 && are_in_tag(word)
}

// Checks whether the bytes of `word` are ASCII letters, digits and hyphens, the ones that a language tag may have.
// `is_language_tag` calls it.
fn are_in_tag(word: &[u8]) -> bool
    ensures { result ≡ list_all spec.is_in_tag word.now }
{
    word.iter().all(|&b| b.is_ascii_alphanumeric() || b == b'-')
}
