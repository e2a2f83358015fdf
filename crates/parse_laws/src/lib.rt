//! How tokens are read from left to right: what the parser does, as functions on lists.
//!
//! `specs/way` has one definition for each function of the parser, with the same cases in the same order. `Below` is what
//! reads the height below, each production is a function over it, and `at` alone recurs (`Knot`). `Rows` has worked rows: the
//! trees that spell them by the grammar's relations are the ones that are read. No contract that a caller reads speaks of
//! these; they speak of the relations of `je_grammar` alone.
#![tactic(auto)]
