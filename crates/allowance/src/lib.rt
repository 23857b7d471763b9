// What is promised of stations under one tick allowance (meaning/specs/TickAllowance.antt), proved. There is no code.
#![tactic(auto)]
