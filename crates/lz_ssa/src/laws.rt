//! A law of nodes that holds of all of them. The function does nothing; its clause is the law.

ghost use Rattle.lz_ssa.specs.NodeValues.{RestOnInputs};

/// The words of nodes rest on the inputs below their number alone.
pub fn nodes_rest_on_inputs()
    ensures { RestOnInputs }
{}
