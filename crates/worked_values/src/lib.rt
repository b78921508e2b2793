//! The worked values of the frame, packet and message formats, in one statement.
//! Each is computed from the definition that the contract of the call cites, so it is what the call answers.
//! Main promise: `worked_values_hold`, that every one of them is the value that stands here.
#![tactic(auto)]

ghost use Rattle.worked_values.specs.WorkedValues.{WorkedValues};

/// All worked values at once.
pub fn worked_values_hold()
    ensures { WorkedValues }
{}
