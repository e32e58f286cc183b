//! Laws of how a reader sleeps and is woken, each the clause of a function that does nothing. They are of a model whose steps name
//! the lines of code that they are (`specs/clauses/Waking.antt`), and not of threads.

ghost use Rattle.tb_rings.specs.clauses.Waking.{NoWakeUpIsLost, WakingEnds};

/// Establishes that in no order of the steps a reader stays asleep with a value to take, or with the run given up.
pub fn no_wake_up_is_lost()
    ensures { NoWakeUpIsLost }
{}

/// Establishes that the steps that lead a value out, or the reader away, end, and that one can be taken until then.
pub fn waking_ends()
    ensures { WakingEnds }
{}
