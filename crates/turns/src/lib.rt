// The turns of stations on one table: laws of the definitions of meaning/specs/Stations.antt, and the order in which the code serves
// turns. There is no code.
#![tactic(auto)]
