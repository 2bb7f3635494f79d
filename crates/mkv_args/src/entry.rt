//! Tables of arguments with their meanings: commands, modes and options.

ghost use Rattle.std.specs.Prelude.{◌≡◌, map};
ghost use Rattle.mkv_args.specs.Entry as spec;

/// Row of a table of arguments: the short spelling (may be empty), the long one, and the meaning.
#[derive(Clone, Copy)]
pub(crate) struct Entry<T>(
    pub(crate) &'static str,
    pub(crate) &'static str,
    pub(crate) T,
);

/// Returns the meaning of the first of `entries` that has `word`, an argument, as one of its spellings, or None. Used
/// for commands, modes of `extract` and options of `propedit`.
pub(crate) fn meant<T: Copy>(entries: &[Entry<T>], word: &str) -> Option<T>
    ensures { result ≡ spec.meant (map spec.shown entries.now) word.now }
{
    for entry in entries {
        if !word.is_empty() && (entry.0 == word || entry.1 == word) {
            return Some(entry.2);
        }
    }
    None
}
