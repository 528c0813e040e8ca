// Rows of flags closed under the last column: a set gains whatever its members reach by one mark or more.
ghost use Rattle.std.specs.Prelude.{◌≡◌, ◌-◌, ◌<◌, ◌≤◌, length, replicate};
ghost use Rattle.rows.specs.Sums.{Summed};
ghost use Rattle.flags.specs.Closure.{Closes, Chased, Gains};
ghost use Rattle.flags.specs.Flags.{target_of};
ghost use Rattle.flags.specs.Members.{Counted, led_by};

use entries::table::Table;
use rows::sum;

// Flags p and what it leads to by marks, until a state is met that is flagged already; the row's sum then.
pub fn chase(table: &Table, p: usize, sum: usize, row: &mut [u8]) -> usize
    requires closes { Closes table.now row.old }
    requires p_lt_states { p < table.now.states }
    requires summed { Summed 0 row.old sum }
    ensures { Chased (target_of table.now (table.now.columns - 1)) table.now.states p row.old row.new × Summed 0 row.new result }
{
    let mark = table.columns - 1;
    let mut all = sum;
    let mut q = p;
    // Stays: a walk along transitions until a flagged state, no index is counted.
    while row[q] == 0 {
        all = sum::flag(row, 0, q, all);
        q = table.target(q, mark);
    }
    all
}

// Flags the states that the members lead to by the column c, and all that those lead to by marks: the row is closed all the time, so that
// where a flagged state is met, what it leads to is flagged too. The row's sum then.
pub fn lead(table: &Table, c: usize, members: &[u16], row: &mut [u8]) -> usize
    requires closes { Closes table.now row.old }
    requires c_lt_columns { (c < table.now.columns) × (table.now.states ≤ 65536) }
    requires counted { Counted table.now.states (length members.now) members.now }
    requires row_value { row.old ≡ replicate table.now.states 0 }
    ensures { Gains (target_of table.now (table.now.columns - 1)) table.now.states (led_by members.now (target_of table.now c) (length members.now)) row.new × Summed 0 row.new result }
{
    let mut sum = 0;
    for q in members {
        let to = table.target(*q as usize, c);
        sum = chase(table, to, sum, row);
    }
    sum
}
