// Operands brought into slots of a stack of machines: a letter, a given machine, a copy of a name's or a register's. These are parts: callers give slots
// that hold machines and buffers that are long enough.
#![tactic(auto)]

pub mod copies;
pub mod operand;

use answers::Limits;

// The limits of a stage, and the bytes of a slot.
#[derive(Clone, Copy)]
pub struct Layout {
    pub limits: Limits,
    pub size: usize,
}

// The slots of the names, A to M and N to Z, as they are read. Both may be one buffer.
#[derive(Clone, Copy)]
pub struct Names<'a> {
    pub low: &'a [u8],
    pub high: &'a [u8],
}
