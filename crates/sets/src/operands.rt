// An operation with the machines that it is applied to.
ghost use Rattle.sets.specs.Operands.{Fits};

use crate::Operation;
use entries::table::Table;

// The operation, its two machines, the bytes of a row, and the most sets. Star and erase take their one operand twice.
#[derive(Clone, Copy)]
pub struct Operands<'a> {
    pub op: Operation,
    pub left: Table<'a>,
    pub right: Table<'a>,
    pub width: usize,
    pub limit: usize,
    pub ghost fits: { Fits op left right width },
}
