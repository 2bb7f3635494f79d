//! Meaning of the option `--split`

ghost use Rattle.std.specs.Prelude.{◌≡◌, filter_map, IfOk};
ghost use Rattle.splitter.specs.declared.spec.SplitSpec.TheVariants as spec;
ghost use Rattle.splitter.specs.Words.{size_of, spec_of, start_at};

use crate::spec::SplitSpec;
use mkv_io::List;
use requests::SplitWords;
use std::alloc::{AllocError, Global};

// Returns the start of the chapter with the number `number`, counted from 1, or None. `starts` has the starts of all
// chapters in nanoseconds. For `starts_at`, when `merge` cuts its output.
fn start_at(starts: &[u64], number: u64) -> Option<u64>
    ensures { result ≡ start_at starts.now number }
{
    let k = number.checked_sub(1)?;
    starts.get(k as usize).copied()
}

// Returns the starts of the chapters with the numbers `numbers`, counted from 1, in nanoseconds. Chapters that don't
// exist are left out. For `split_spec`, when `merge` cuts its output.
fn starts_at(alloc: Global, starts: &[u64], numbers: &[u64]) -> Result<List<u64>, AllocError>
    ensures { IfOk result (λ at. at ≡ filter_map (start_at starts.now) numbers.now) }
{
    let at = numbers
        .iter()
        .filter_map(|number| start_at(starts, *number));
    Ok(List::from_vec(at.collect(alloc)?))
}

// Returns the cuts at the times `at`, in nanoseconds. For `split_spec`, when `merge` cuts its output.
fn times(alloc: Global, at: &[u64]) -> Result<SplitSpec, AllocError>
    ensures { IfOk result (λ s. s ≡ spec.Times at.now) }
{
    Ok(SplitSpec::Times {
        at: List::from_vec(Vec::from_slice(alloc, at)?),
    })
}

/// Returns the cuts at times that the option `words` asks for. `starts` are the starts of the output's chapters in
/// nanoseconds, for cuts at chapters. Without the option, or if it asks for parts of a size, there are no times.
/// `merge` calls it when it makes its plan.
pub fn split_spec(
    alloc: Global,
    words: &Option<SplitWords>,
    starts: &[u64],
) -> Result<SplitSpec, AllocError>
    ensures { IfOk result (λ spec. spec ≡ spec_of words.now starts.now) }
{
    match words {
        None | Some(SplitWords::Size { .. }) => Ok(SplitSpec::Whole),
        Some(SplitWords::Duration { by }) => Ok(SplitSpec::Duration { by: *by }),
        Some(SplitWords::Times { at }) => times(alloc, at.as_slice()),
        Some(SplitWords::Parts { spans }) => Ok(SplitSpec::Parts {
            spans: List::from_vec(Vec::from_slice(alloc, spans.as_slice())?),
        }),
        Some(SplitWords::AllChapters) => times(alloc, starts),
        Some(SplitWords::Chapters { numbers }) => Ok(SplitSpec::Times {
            at: starts_at(alloc, starts, numbers.as_slice())?,
        }),
    }
}

/// Returns the size in bytes that ends each part, if the option `words` asks for parts of a size, and None otherwise.
/// `merge` calls it when it makes its plan.
pub fn split_size(words: &Option<SplitWords>) -> Option<u64>
    ensures { result ≡ size_of words.now }
{
    match words {
        Some(SplitWords::Size { limit }) => Some(*limit),
        _ => None,
    }
}
