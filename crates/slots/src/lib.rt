// Machines in slots of bytes: unpacked into tables, and the given ones, which no stage makes. These are parts: callers give slots that are long
// enough, and where a machine is read, slots that hold one.
#![tactic(auto)]

pub mod given;
pub mod slot;
