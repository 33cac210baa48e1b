#![tactic(auto)]

// The worked cases that the papers mark, and more beside them: one theorem over lists of cases (specs/Table.antt,
// proofs/Table.antt). There is no code here. A crate of its own, since computing them takes longer than proving all of
// gsd_stores.
