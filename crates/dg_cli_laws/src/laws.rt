//! What command lines mean, the contract of a function that does nothing.
ghost use Rattle.dg_cli_laws.specs.OneMeaning.{MeaningIsUnique};

/// A list of words asks for one thing at most, and none both asks for something and has a fault.
pub fn meaning_is_unique()
    ensures { MeaningIsUnique }
{}
