//! Laws over the definitions. The functions do nothing: their contracts are the laws.

ghost use Rattle.circuit_keys.specs.Circuit.{OneCircuit};

/// One text is that of one circuit alone.
pub fn one_circuit()
    ensures { OneCircuit }
{}
