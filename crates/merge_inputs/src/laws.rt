//! Laws about each input that was read

ghost use Rattle.merge_inputs.specs.Laws.{InputsStay};

/// States that an input stays valid while its own file is unchanged, whatever happens to other files. A law for
/// `merge`, which reads its inputs one after another; no command calls it.
pub fn inputs_stay()
    ensures { InputsStay }
{}
