// The starred bench packets and plans of rule 8.1, as one table proved by one computed test.
#![tactic(auto)]

ghost use Rattle.bench_table.specs.Table.{rows};
ghost use Rattle.bench_table.specs.Holds.{EachHolds};

// Nothing to run: its contract is the table, each row of which holds of both families' entries.
pub fn rows_hold()
    ensures { EachHolds rows }
{}
