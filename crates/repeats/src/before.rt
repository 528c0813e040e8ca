// Whether a row's states lead by a column where they lead by the column before: then both lead to one row. In a book of listed words most columns do so.
ghost use Rattle.std.specs.Prelude.{true, ◌≡◌, ℕ, ◌+◌, ◌*◌, ◌-◌, ◌<◌, length, get_or};
ghost use Rattle.flags.specs.Members.{Counted};
ghost use Rattle.sets.specs.Fits.{ListedFor, rows_for};
ghost use Rattle.sets.specs.Operations.{operation_of, is_pairing, concatenation};
ghost use Rattle.repeats.specs.Repeats.{Looks};
ghost use Rattle.repeats.specs.Twins.{LeadAlike};

use entries::table::Table;
use octets::number;
use sets::Operation;
use sets::operands::Operands;

// Sets with more listed states are not looked at: comparing them takes longer than making the row.
const FEW: usize = 2;

// Whether the state p leads by the column c where it leads by the column before.
fn state(table: &Table, p: usize, c: usize) -> bool
    requires { (0 < c) × (p < table.now.states) × (c < table.now.columns) }
    ensures { result ≡ true → LeadAlike table.now (c - 1) c p }
{
    table.target(p, c - 1) == table.target(p, c)
}

// The same for the listed members.
fn listed(table: &Table, c: usize, members: &[u16]) -> bool
    requires c_nonzero { (0 < c) × (c < table.now.columns) }
    requires counted { Counted table.now.states (length members.now) members.now }
    ensures { result ≡ true → (i : ℕ) → i < length members.now → LeadAlike table.now (c - 1) c (get_or members.now i 0) }
{
    for q in members {
        if !state(table, *q as usize, c) {
            return false;
        }
    }
    true
}

// The same for a pair.
fn pair(operands: &Operands, c: usize, from: &[u8]) -> bool
    requires looks { Looks operands.now c from.now }
    requires pairs { is_pairing (operation_of operands.now.op) ≡ true }
    ensures { result ≡ true → (rows_for operands.now).step from.now (c - 1) ≡ (rows_for operands.now).step from.now c }
{
    let p = number::read(from, 0);
    let r = number::read(from, 2);
    state(&operands.left, p, c) && state(&operands.right, r, c)
}

// The same for a row of a concatenation.
fn joined(operands: &Operands, c: usize, from: &[u8], members: &[u16]) -> bool
    requires looks { Looks operands.now c from.now }
    requires op_value { operation_of operands.now.op ≡ concatenation }
    requires listed { ListedFor operands.now from.now (length members.now) members.now }
    ensures { result ≡ true → (rows_for operands.now).step from.now (c - 1) ≡ (rows_for operands.now).step from.now c }
{
    let p = number::read(from, 0);
    state(&operands.left, p, c) && listed(&operands.right, c, members)
}

// The same for a row of any operation.
pub fn same(operands: &Operands, c: usize, from: &[u8], members: &[u16]) -> bool
    requires looks { Looks operands.now c from.now }
    requires listed { ListedFor operands.now from.now (length members.now) members.now }
    ensures { result ≡ true → (rows_for operands.now).step from.now (c - 1) ≡ (rows_for operands.now).step from.now c }
{
    match operands.op {
        Operation::Either | Operation::Both | Operation::Without => pair(operands, c, from),
        _ if FEW < members.len() => false,
        Operation::Join => joined(operands, c, from, members),
        Operation::Star => listed(&operands.left, c, members),
        Operation::Erase => operands.left.columns != c + 1 && listed(&operands.left, c, members),
    }
}
