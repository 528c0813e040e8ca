// A line's program, run on a stack of machines in slots of bytes. These are parts: callers give slots that hold machines and buffers that are long
// enough.
#![tactic(auto)]

pub mod run;
