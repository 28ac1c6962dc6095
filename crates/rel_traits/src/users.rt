//! Whether something is used as a component or relationship.
ghost use Rattle.std.specs.Prelude.{◌≡◌, ◌==◌, flat_map, length, not};
ghost use Rattle.ecs_model.specs.Added.{is_used};

use ecs_id::ListedKey;
use id_pattern::{Part, Pattern};
use rel_travel::Holders;

/// Whether a fact uses the entity as component or relationship.
pub fn in_use<G: Holders>(graph: &G, index: u32) -> bool
    ensures { result ≡ is_used (G.ids graph.now) (G.entities graph.now) index }
{
    let first = Part::Is(index);
    let plain = Pattern {
        first,
        second: None,
    };
    let second = Some(Part::Any);
    has_rows(graph, graph.tables_of(plain))
        || has_rows(graph, graph.tables_of(Pattern { first, second }))
}

/// Whether one of the tables has a row.
fn has_rows<G: Holders>(graph: &G, tables: &[ListedKey]) -> bool
    ensures { result ≡ not (length (flat_map (G.rows graph.now) tables.now) == 0) }
{
    for table in tables {
        if !graph.rows(*table).is_empty() {
            return true;
        }
    }
    false
}
