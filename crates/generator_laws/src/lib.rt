//! What is proved of generated listings: lemmas, no code.
//!
//! All of it is said of the listing of any draws whose registers are below eight, so the sequence of draws is met once, for
//! its ranges (`proofs/Fits`). No op breaks a rule and each is built (`proofs/Obeys`). What stands at an address is found by
//! its number (`proofs/Stands`), so each way on from a place of the listing leads to one (`proofs/Spots`): the flow has no
//! fault, and blocks begin at first places of instructions alone (`proofs/Flowing`).
#![tactic(auto)]
