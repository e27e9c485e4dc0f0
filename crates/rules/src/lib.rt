//! The table of rewrite rules, once, for expression trees and for graphs of operations.
//!
//! A rule is a pair of expressions. `specs/Table.antt` has the table as a relation: a file a family (folds, arithmetic,
//! shifts, parts, booleans, comparisons) with a constructor a form, and above them the two orders of the operands of a
//! commutative operation. What each rule keeps is `specs/Keeps.antt`: the width, the value where there was one, and at
//! most the depth.
//!
//! The one theorem is `sound`. Each form is proved in one way: the left side, which has a width and a value, is taken
//! apart node by node, one law of the values applies, and the right side is put together (`proofs/Has.antt`). That
//! widths are kept also where there is no value costs nothing more, since an expression of right widths has a value
//! under a reading of the divisions that always has one (`proofs/Words.antt`).
#![tactic(auto)]
