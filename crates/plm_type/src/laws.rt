//! A law of a program's trees. It computes nothing.

ghost use Rattle.plm_type.specs.Laws.{TreesHaveTheirLists};

/// The law of lists: a tree with a list of others stands for the tree of what these stand for, one after the other.
pub fn trees_have_their_lists()
    ensures { TreesHaveTheirLists }
{}
