//! Worked cases. The function does nothing, and its contract is what was proved.
ghost use Rattle.stackvars.specs.Cases.{AcrossEntry, ArgumentCuts, ByteCuts, KeptCuts, LastByte, NoAccess, OverlapSplits, TouchingStay};

/// The atoms of some accesses and cuts, each of them written out.
pub fn worked_cases()
    ensures byte { ByteCuts }
    ensures kept { KeptCuts }
    ensures touching { TouchingStay }
    ensures overlap { OverlapSplits }
    ensures nothing { NoAccess }
    ensures last { LastByte }
    ensures across { AcrossEntry }
    ensures argument { ArgumentCuts }
{}
