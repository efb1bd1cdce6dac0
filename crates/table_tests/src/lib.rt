//! Tests of sets of bits, tables, lists in parts, the pool of pages, stores and maps of dependants. They stand above the
//! crates that they test, so that each of those is proved once.
#![tactic(auto)]

#[cfg(test)]
mod bits;
#[cfg(test)]
mod dependants;
#[cfg(test)]
mod pages;
#[cfg(test)]
mod parts;
#[cfg(test)]
mod plain;
#[cfg(test)]
mod pool;
#[cfg(test)]
mod runs;
#[cfg(test)]
mod stores;
#[cfg(test)]
mod tables;
