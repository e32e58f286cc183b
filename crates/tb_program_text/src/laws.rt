//! Laws on what a script says.

ghost use Rattle.tb_program_text.specs.clauses.Laws.{FirstFaultDecides, FaultlessLinesAreParsed, SpelledAccountsAreLaidOut, SpelledIdsAreLaidOut, SpelledScriptsAreRead, SpelledTransfersAreLaidOut};

/// Establishes that the first faulty line decides, whatever follows it.
#[tactic(auto, using(crate::proofs::Lines::decides))]
pub fn first_fault_decides()
    ensures { FirstFaultDecides }
{}

/// Establishes that a script in which no line is faulty has no fault.
#[tactic(auto, using(crate::proofs::Lines::faultless))]
pub fn faultless_lines_are_parsed()
    ensures { FaultlessLinesAreParsed }
{}

/// Establishes that a script spelled from settings and items is read as these.
#[tactic(auto, using(crate::proofs::Spelling::read_as_spelled))]
pub fn spelled_scripts_are_read()
    ensures { SpelledScriptsAreRead }
{}

/// Establishes that a line spelled from the fields of an account adds the 128 bytes that `tb_layout` writes of it.
#[tactic(auto, using(crate::proofs::Fields::accounts_are_laid_out))]
pub fn spelled_accounts_are_laid_out()
    ensures { SpelledAccountsAreLaidOut }
{}

/// Establishes that a line spelled from the fields of a transfer adds the 128 bytes that `tb_layout` writes of it.
#[tactic(auto, using(crate::proofs::Fields::transfers_are_laid_out))]
pub fn spelled_transfers_are_laid_out()
    ensures { SpelledTransfersAreLaidOut }
{}

/// Establishes that a line spelled from an id adds its 16 bytes, the lowest first.
#[tactic(auto, using(crate::proofs::Fields::ids_are_laid_out))]
pub fn spelled_ids_are_laid_out()
    ensures { SpelledIdsAreLaidOut }
{}
