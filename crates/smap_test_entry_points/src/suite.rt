//! Tests of what neither a contract nor a row of `tests/rows/` says: that calls which the programs don't make
//! succeed with enough memory; what comes of readers and writers that move few bytes a call and fail at a
//! given one, and how often they are called; what was written by the time of a read; the probes of lookups.
//! The contracts say that each call returns what a definition says; what the definitions should say is in
//! the tables of `tests/rows/`. The expected results were found by hand or by another program. The tests are
//! in this crate so that those that they test are proved only once, and one function goes through each
//! table, which is proved once however long the table is.

mod asserted;
mod building;
mod devices;
mod lookups;
mod mappings;
mod maps;
mod reading;
mod round_trips;
mod runs;
mod slow_reader;
mod slow_writer;
mod streaming;
mod translating;
mod watched;
