//! One value of the same entities written for each of them: by table, and in plain slices.

use crate::commands::Fault;
use crate::iterating::{PLANE, bytes_of, plane_of};
use ecs_id::{Id, TableKey};
use ecs_world::World;
use query_check::Query;
use query_chunks::{Chunk, Chunks, has_chunks};
use std::alloc::{AllocError, Global};

/// The bytes that tables get for one id, one table's after those of another. The room stays from one turn to the next.
#[derive(Drop)]
pub(crate) struct TableBytes {
    /// Each table, and how many bytes it gets.
    tables: Vec<(TableKey, usize)>,
    bytes: Vec<u8>,
}

/// A position that was moved by a velocity.
#[inline(always)]
fn moved(position: &[u8], velocity: &[u8]) -> [u8; PLANE] {
    let (x, y) = plane_of(position);
    let (dx, dy) = plane_of(velocity);
    let [a, b, c, d] = x.wrapping_add(dx).to_le_bytes();
    let [e, f, g, h] = y.wrapping_add(dy).to_le_bytes();
    [a, b, c, d, e, f, g, h]
}

/// Moves each position by its velocity, where it stands.
pub(crate) fn move_all(positions: &mut [u8], velocities: &[u8]) {
    let pairs = positions
        .chunks_exact_mut(PLANE)
        .zip(velocities.chunks_exact(PLANE));
    for (position, velocity) in pairs {
        let new = moved(position, velocity);
        if let [a, b, c, d, e, f, g, h] = position {
            [*a, *b, *c, *d, *e, *f, *g, *h] = new;
        }
    }
}

impl TableBytes {
    pub(crate) fn new(alloc: Global) -> TableBytes {
        TableBytes {
            tables: Vec::new(alloc),
            bytes: Vec::new(alloc),
        }
    }

    /// Adds the moved positions of a table.
    fn add(
        &mut self,
        key: TableKey,
        positions: &[u8],
        velocities: &[u8],
    ) -> Result<(), AllocError> {
        self.tables.push((key, positions.len()))?;
        let begin = self.bytes.len();
        self.bytes.extend_from_slice(positions)?;
        move_all(&mut self.bytes.as_mut_slice()[begin..], velocities);
        Ok(())
    }

    /// Adds the moved positions of a table, if it has both values.
    fn add_table(&mut self, table: &Chunk<'_>) -> Result<(), AllocError> {
        match (bytes_of(table, 0), bytes_of(table, 1)) {
            (Some(positions), Some(velocities)) => self.add(table.table(), positions, velocities),
            _ => Ok(()),
        }
    }

    /// Adds those of all tables to come.
    fn add_tables(&mut self, tables: &mut Chunks<'_>) -> Result<(), AllocError> {
        for _ in 0..u32::MAX {
            let Some(table) = tables.next_chunk() else {
                break;
            };
            let added = self.add_table(&table);
            drop(table);
            added?;
        }
        Ok(())
    }

    /// Finds the moved positions of all tables of a query for both values.
    fn find(&mut self, world: &World, query: &Query) -> Result<(), AllocError> {
        self.tables.clear();
        self.bytes.clear();
        if !has_chunks(query) {
            return Ok(());
        }
        let mut tables = Chunks::start(world, query);
        let added = self.add_tables(&mut tables);
        drop(tables);
        added
    }

    /// Moves each entity of a query by its velocity.
    pub(crate) fn take(
        &mut self,
        world: &mut World,
        query: &Query,
        position: Id,
    ) -> Result<(), Fault> {
        self.find(world, query)?;
        let mut left = self.bytes.as_slice();
        for (key, size) in self.tables.as_slice() {
            let (bytes, later) = left.split_at_checked(*size).ok_or(Fault::World)?;
            world
                .set_column(*key, position, bytes)
                .or(Err(Fault::World))?;
            left = later;
        }
        Ok(())
    }
}
