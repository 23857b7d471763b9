// Demand 3 of the operations `compiler::compile`, `acceptance::accept` and `recorder::table_run::run`: statements in specs/Demand3.antt;
// Ask 6 and demand 3 station by station, of `stations::serve`: statements in specs/StationsDemand.antt; and their proofs. There is no code.
#![tactic(auto)]
