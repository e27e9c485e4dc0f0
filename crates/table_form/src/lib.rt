//! What the jump table of a BRANCHIND is: the definition, its laws, and small tables.
//!
//! A slice is a run of ops that ends at the BRANCHIND. In it each range has a tree, an expression over what ranges held
//! as the slice was entered: a byte has what wrote it last, and a range is cut into the parts that one op each wrote
//! (`specs/Slices.antt`). The slice is passed by falling through its one CBRANCH, whose condition's tree says which
//! values a subtree x of the BRANCHIND's target may have, or x is masked (`specs/Form.antt`). With each such value the
//! target has one value, since outside x it has no range of the entry and loads read-only bytes alone; that is the
//! address of an instruction (`specs/Values.antt`). The table is that of the shortest slice that has one, with the
//! first such x (`specs/Tables.antt`).
#![tactic(auto)]

ghost use Rattle.table_form.specs.Laws.{OneTable, OneValue};
ghost use Rattle.table_form.specs.Worked.{WorkedSlice, WorkedTrees};

/// A tree has one value at most where x has a value.
pub fn one_value()
    ensures { OneValue }
{}

/// A BRANCHIND has one table at most.
pub fn one_table()
    ensures { OneTable }
{}

/// The trees of ranges after a few ops, and a small slice with its guard and its target.
pub fn worked_slices()
    ensures trees { WorkedTrees }
    ensures slice { WorkedSlice }
{}
