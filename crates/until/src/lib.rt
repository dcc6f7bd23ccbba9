// The run that a debugger plays to its next breakpoint.
#![tactic(auto)]

pub mod until; // until.rt: the run that ends with the first step that leaves IAR at a stop
