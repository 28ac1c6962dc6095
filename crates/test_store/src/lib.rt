//! Blocks, tables, the store and its indexes, searches, traits and fields: each call that takes memory, worked cases,
//! and what takes none.
#![tactic(auto)]

#[cfg(test)]
mod blocks;
#[cfg(test)]
mod closures;
#[cfg(test)]
mod depths;
#[cfg(test)]
mod edges;
#[cfg(test)]
mod indexes;
#[cfg(test)]
mod list_graph;
#[cfg(test)]
mod reach;
#[cfg(test)]
mod schemas;
#[cfg(test)]
mod sized;
#[cfg(test)]
mod tables;
