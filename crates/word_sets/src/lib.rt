//! Sets of words by their turning points, for guards of jump tables.
//!
//! A set says of the least word whether it has it, and has the words, in rising order, at which that turns. So there
//! is no end of an interval that wouldn't fit 16 bytes, what isn't in the set is the set with its beginning turned,
//! and a set costs its turning points, however many words it has (`src/set.rt`). Two sets are joined by a connective
//! in one walk over the points of both, the least first, which notes a point where what holds changes.
//!
//! A comparison of a word, moved by a constant, with a constant holds on an arc of the words or off it: all orders
//! begin at their least word, 0 or the least signed word, so the words below k are those from there on up to k,
//! around the end (`src/comparing.rt`). An arc has at most two turning points.
//!
//! The words of a set are found by a walk over its points that ends where there are too many (`src/words.rt`).
#![tactic(auto)]

pub mod comparing;
pub mod comparisons;
pub mod set;
pub mod words;

pub use comparing::comparison_set;
pub use comparisons::{Comparison, Order};
pub use set::{Connective, WordSet};
pub use words::few_words;
