//! The title of an output.

ghost use Rattle.std.specs.Prelude.{◌≡◌, map};
ghost use Rattle.merge_inputs.specs.Input.{read_in};
ghost use Rattle.merge_plan.specs.Records.{first_title, title_of};

use merge_inputs::Input;
use requests::MergeWords;

/// Returns the title of the first of `inputs` that has one, or an empty text. `title_of` calls it if the options have
/// no title.
fn first_title(inputs: &[Input]) -> &str
    ensures { result.now ≡ first_title (map read_in inputs.now) }
{
    for input in inputs {
        if !input.title.is_empty() {
            return input.title.as_str();
        }
    }
    ""
}

/// Returns the output's title for its Info: the one in the options `words`, or else the first title of an input in
/// `inputs`. An empty title in the options means that there is none. `plan_of` calls it.
pub(crate) fn title_of<'a>(words: &'a MergeWords, inputs: &'a [Input]) -> &'a str
    ensures { result.now ≡ title_of words.now (map read_in inputs.now) }
{
    match &words.title {
        Some(title) => title.as_str(),
        None => first_title(inputs),
    }
}
