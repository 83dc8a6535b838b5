//! A law of the engine as a machine, the contract of a function that does nothing.

ghost use Rattle.table_engine.specs.Laws.{MachineIsLegal};

/// The histories that are legal for the engine as a machine are the legal histories of a table.
pub fn machine_histories_are_legal()
    ensures { MachineIsLegal }
{}
