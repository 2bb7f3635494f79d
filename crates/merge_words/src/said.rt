//! Values of the items of a merge's command line, by subject.

ghost use Rattle.std.specs.Prelude.{◌≡◌, IfOk};
ghost use Rattle.std.specs.Option.{option_copied};
ghost use Rattle.merge_words.specs.Said as spec;

use crate::item::Item;
use crate::options::Subject;
use mkv_io::{List, Text};
use std::alloc::{AllocError, Global};
use word_values::{Value, name};

/// Returns the value of the first of `items` that has the subject `subject`, or None. Used for all options that are
/// given once.
pub(crate) fn value_in(subject: Subject, items: &[Item]) -> Option<&Value>
    ensures { option_copied result ≡ spec.value_in subject items.now }
{
    let item = items.iter().find(|item| item.subject.is(subject))?;
    Some(&item.value)
}

/// Returns the file name that is the value of the first of `items` with the subject `subject`, or None. For the name of
/// the output and of the chapter file.
pub(crate) fn file_in(
    alloc: Global,
    subject: Subject,
    items: &[Item],
) -> Result<Option<Text>, AllocError>
    ensures { IfOk result (λ name. name ≡ spec.file_in subject items.now) }
{
    match value_in(subject, items) {
        Some(Value::File(word)) => Ok(Some(name(alloc, word.as_str())?)),
        _ => Ok(None),
    }
}

/// Returns a copy of the list `numbers`. For a selection of tracks and for the numbers of `--split`.
pub(crate) fn numbers_copy(alloc: Global, numbers: &List<u64>) -> Result<List<u64>, AllocError>
    ensures { IfOk result (λ copy. copy ≡ numbers.now) }
{
    Ok(List::from_vec(Vec::from_slice(alloc, numbers.as_slice())?))
}
