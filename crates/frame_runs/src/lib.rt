//! What is known of addresses of the stack is true of every run, and so the frame law holds for a listing's own frame.
//!
//! Facts are true of runs over any memory, since no memory comes into them: an op writes its output, and a fact over it
//! speaks of other ranges, or of an output whose word is a word that is known plus a constant; a call leaves kept ranges,
//! and the stack pointer by its pop count higher (`proofs/Steps.antt`, `proofs/Calls.antt`). By one induction over the steps
//! the facts of each place hold there (`proofs/Runs.antt`). So each access of a frame variable lies at its offset, all its
//! bytes being the variable's, and the frame law holds for the frame (`proofs/Owned.antt`, `proofs/Guided.antt`).
#![tactic(auto)]

ghost use Rattle.std.specs.Prelude.{ℕ, [], List};
ghost use Rattle.pcode_model.specs.declared.frame.Frame.{Frame as Listed};
ghost use Rattle.pcode_model.specs.declared.listing.Listing.{Listing};
ghost use Rattle.pcode_model.specs.declared.listing.Place.{Place};
ghost use Rattle.pcode_model.specs.World.{Entry};
ghost use Rattle.pcode_model.specs.Memory.{Frame};
ghost use Rattle.frame_runs.specs.Laws.{FactsLaw, IsRun, LawOfFrame};
ghost use Rattle.frame_facts.specs.Listed.{IsFrame};
ghost use Rattle.frame_runs.specs.Worked.{WorkedFacts};

/// Facts are true of every run, until it ends.
pub fn facts_hold()
    ensures { (l : Listing) (e : Entry) (f : Frame) (n : ℕ) → IsRun l e → FactsLaw l e f n }
{}

/// The frame law of the frame that is a listing's, which may evaluate LOADs at these places.
pub fn law_of_frame()
    ensures { (l : Listing) (e : Entry) (evaluated : List Place) (f : Listed)
        → IsRun l e
        → IsFrame l [] evaluated f
        → LawOfFrame l e f }
{}

/// What ops make of addresses, which reads let them escape, and which accesses share bytes.
pub fn worked_facts()
    ensures { WorkedFacts }
{}
