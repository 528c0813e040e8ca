// Columns that lead every state of both operands to the same place: one of them is explored, the others repeat it. Letters that a rule does not tell apart
// are such columns. The last column is left alone, since erase treats it in its own way.
ghost use Rattle.std.specs.Prelude.{true, ◌≡◌, ℕ, ◌+◌, ◌*◌, ◌<◌, ◌≤◌, length, slice_index_or, replicate, Some, None, IfSome};
ghost use Rattle.repeats.specs.Twins.{LeadAlike, Twins, TwinTable};

use entries::table::Table;
use sets::operands::Operands;

// Whether two columns of a table lead each of its states to the same place.
fn alike(table: &Table, d: usize, c: usize) -> bool
    requires { (d < table.now.columns) × (c < table.now.columns) }
    ensures { result ≡ true → (q : ℕ) → q < table.now.states → LeadAlike table.now d c q }
{
    for q in 0..table.states {
        if table.target(q, d) != table.target(q, c) {
            return false;
        }
    }
    true
}

// The first column before column c that is as it in both operands.
fn first(operands: &Operands, c: usize) -> Option<u8>
    requires c_bound { (c < 64) × (c + 1 < operands.now.left.columns) }
    ensures { IfSome result (λ d. (d < c) × Twins operands.now d c) }
{
    for d in 0..c {
        if alike(&operands.left, d, c) && alike(&operands.right, d, c) {
            return Some(d as u8);
        }
    }
    None
}

// Of each of the first 64 columns the first one before it that is as it. The table is filled where it stands.
pub fn twins(operands: &Operands, table: &mut [Option<usize>; 64])
    requires table_value { table.old ≡ replicate 64 None }
    ensures { TwinTable operands.now table.new }
{
    let mut known = [None; 64];
    byte_twins(operands, &mut known);
    for c in 0..64 {
        table[c] = byte_twin(&known, c);
    }
}

// The twin of column c, where one is known.
pub fn twin(table: &[Option<usize>; 64], c: usize) -> Option<usize>
    ensures { IfSome result (λ d. (c < 64) × (slice_index_or table.now c None ≡ Some d)) }
{
    *table.get(c)?
}

// The same table in bytes: a column below 64 fits one, and a stage has an eighth of the place to clear.
pub fn byte_twins(operands: &Operands, table: &mut [Option<u8>; 64])
    requires table_value { table.old ≡ replicate 64 None }
    ensures { TwinTable operands.now table.new }
{
    for c in 0..table.len().min(operands.left.columns - 1) {
        table[c] = first(operands, c);
    }
}

// The twin of column c in a table of bytes, where one is known.
pub fn byte_twin(table: &[Option<u8>; 64], c: usize) -> Option<usize>
    ensures { IfSome result (λ d. (c < 64) × (slice_index_or table.now c None ≡ Some d)) }
{
    let d = (*table.get(c)?)?;
    Some(d as usize)
}

#[cfg(test)]
mod tests {
    use super::*;
    use sets::Operation;

    // Columns 0 and 2 lead both states to the same places, column 1 does not, and the last, which does too, is left alone.
    #[test]
    fn twins_are_known(rt: HostRuntime) {
        let cells = [0u16, 1, 1, 0, 1, 1, 0, 1, 0, 0];
        let machine = Table {
            cells: &cells,
            base: 2,
            states: 2,
            columns: 4,
        };
        let operands = Operands {
            op: Operation::Star,
            left: machine,
            right: machine,
            width: 3,
            limit: 8,
        };
        let mut table = [None; 64];
        twins(&operands, &mut table);
        for (c, want) in [
            (0, None),
            (1, None),
            (2, Some(0)),
            (3, None),
            (63, None),
            (64, None),
        ] {
            assert_eq!(rt; twin(&table, c), want, "at {c}");
        }
        table[1] = Some(300);
        assert_eq!(rt; twin(&table, 1), Some(300));
    }
}
