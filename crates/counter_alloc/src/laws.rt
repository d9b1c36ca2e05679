//! The laws of the definitions.
ghost use Rattle.counter_alloc.specs.Laws.{ListsEach, ListsInOrder, ListsSome, ListsLeastFirst, OneLeast, OneBlame, BlameStays, ComputesBlame, LeastSet};

/// The definitions of assignments and blames are as they are meant: these laws hold of them.
pub fn assignment_laws()
    ensures lists_each { ListsEach }
    ensures lists_in_order { ListsInOrder }
    ensures lists_some { ListsSome }
    ensures lists_least_first { ListsLeastFirst }
    ensures one_least { OneLeast }
    ensures one_blame { OneBlame }
    ensures blame_stays { BlameStays }
    ensures computes_blame { ComputesBlame }
    ensures least_set { LeastSet }
{}
