//! The frame law: the run whose memory hides and spoils bytes and the run whose frame variables have bytes of their
//! own show the same, step for step, until the first ends Outside: lemmas.
//!
//! In the run of the listing an access of a frame variable writes hidden bytes and finds them where there are some; a
//! pointer that meets a byte of a frame variable, or reads a hidden one, ends the run Outside, and so does an access
//! of a frame variable that a callee has spoiled. In the other run frame variables have bytes of their own, by offset
//! from the stack pointer's entry word, and nothing is Outside.
//!
//! The two memories go together (`proofs/Memories.antt`): their bytes are equal, and each own byte that isn't spoiled
//! is what an access of its frame variable finds. Each act keeps this or ends both runs alike, unless it ends the
//! first one Outside. An act of several bytes is one of single bytes, one behind another, so four lemmas about one
//! byte carry all. The states are then equal but for their memories (`proofs/States.antt`), and one step leads to such
//! states, or to the first run's Outside, where its events are a prefix of the other's.
//!
//! That an access is at the offset that the frame says isn't known here (`specs/Aligned.antt`): it follows from
//! whatever holds at each place of the run and says where the accesses are, as what is known there of registers. A
//! listing without frame variables needs nothing of the kind, and its law stands by itself. `proofs/Keeps.antt` has
//! the theorem.
#![tactic(auto)]

ghost use Rattle.frame_law.specs.Laws.{LawWithoutFrame};
ghost use Rattle.frame_law.specs.Worked.{WorkedFrame};

/// The frame law of a listing without frame variables.
pub fn law_without_frame()
    ensures { LawWithoutFrame }
{}

/// Runs with a frame variable that is found, met by a pointer, and spoiled.
pub fn worked_frame()
    ensures { WorkedFrame }
{}
