// Operations on the machines of a stack in slots. These are parts: callers give slots that hold machines and buffers that are long enough.
#![tactic(auto)]

pub mod apply;
