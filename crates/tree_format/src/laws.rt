//! Laws on masters that are read whole: RFC 8794, section 7.7 (Master Element).
ghost use Rattle.tree_format.specs.Laws.{ElementsAreListed, TreesAreInOrder, LimitsChangeNoTree, SoundTreesAreReadAgain, ChildrenChange};

/// Law: the Elements of a body are listed one at a time. A promise to users; no code calls it.
pub fn elements_are_listed()
    ensures { ElementsAreListed }
{}

/// Law: reading step by step gives the tree, or the first refusal, that is defined over all Elements at once. A promise
/// to users; no code calls it.
pub fn trees_are_in_order()
    ensures { TreesAreInOrder }
{}

/// Law: if a reader with limits returns a tree, a reader without limits returns the same tree. A promise to users; no
/// code calls it.
pub fn limits_change_no_tree()
    ensures { LimitsChangeNoTree }
{}

/// Law: the written bytes of a valid master are read back as this master by a reader without limits. The master must
/// keep the limits on its length and on nested masters. A promise to users; no code calls it.
pub fn sound_trees_are_read_again()
    ensures { SoundTreesAreReadAgain }
{}

/// Law: a child that is set is the only one with its ID, and the children with every other ID stay. A promise to users;
/// no code calls it.
pub fn children_change()
    ensures { ChildrenChange }
{}
