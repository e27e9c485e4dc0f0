//! That the text of a generated listing is read back as that listing: lemmas, no code.
//!
//! The canonical lines of what has been said say it again, and the text is these lines; so it is shown line by line that
//! each says its part of the listing (`proofs/Saying`): the header's lines one by one, an op by its ranges (`proofs/Ops`),
//! the code by the number of instructions so far (`proofs/Coded`).
#![tactic(auto)]
