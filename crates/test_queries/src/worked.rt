//! Worked rows: a world, a query, and what it prints. Runs and all orders of a plan are tried with each.
//!
//! They are those of `tests/rows` on values, diamonds, parents, variables, groups, alternatives, instances, many terms
//! and indexes that come again, and one more with sibling groups that find an entity. Of the components there those
//! that show values are components here too, and tags stand in place of the others.

use crate::chunks::compare;
use crate::orders::try_orders;
use crate::runs::give_up_anywhere;
use crate::worlds::{Fact, add_all, component, name_all, new_world, replace_all, set_all};
use ecs_model::built_ins::{
    CHILD_OF, DISABLED, DONT_INHERIT, INHERIT, IS_A, ON_INSTANTIATE, PREFAB,
};
use ecs_model::faults::CommandError;
use ecs_world::World;
use std::alloc::Global;
use std::process::Abort;
use std::test::Fail;

/// The entities of a world, by name, and the facts with which several rows begin.
#[derive(Clone, Copy)]
pub(crate) struct Base {
    /// Components whose values are two numbers. They come before the entities.
    pub(crate) components: &'static [&'static str],
    pub(crate) names: &'static [&'static str],
    pub(crate) facts: &'static [Fact],
    /// Facts with other values than zeros.
    pub(crate) values: &'static [(Fact, [i128; 2])],
    /// Who goes then, and two others come.
    pub(crate) replaced: &'static [u32],
}

/// A query in a world, and what it prints there.
#[derive(Clone, Copy)]
pub(crate) struct WorkedRow {
    base: Base,
    more: &'static [Fact],
    pub(crate) query: &'static str,
    pub(crate) answer: &'static str,
    /// How many orders of its plan's steps are plans, at least. None is tried where this is 0.
    pub(crate) plans: usize,
}

const POSITION: u32 = 64;

const PLANET: u32 = 65;

const LIKES: u32 = 66;

const SUN: u32 = 67;

const EARTH: u32 = 68;

const MOON: u32 = 69;

const SKY_NAMES: [&str; 5] = ["Planet", "Likes", "Sun", "Earth", "Moon"];

const SKY_FACTS: [Fact; 5] = [
    (EARTH, CHILD_OF, Some(SUN)),
    (MOON, CHILD_OF, Some(EARTH)),
    (SUN, POSITION, None),
    (EARTH, POSITION, None),
    (EARTH, PLANET, None),
];

/// Earth is a child of Sun, and Moon of Earth; Sun and Earth have a position.
const SKY: Base = Base {
    components: &["Position"],
    names: &SKY_NAMES,
    facts: &SKY_FACTS,
    values: &[((EARTH, POSITION, None), [10, -3])],
    replaced: &[],
};

/// The sun has gone, and with it the earth and the moon. Two others have come to their indexes.
const EMPTY_SKY: Base = Base {
    components: &["Position"],
    names: &SKY_NAMES,
    facts: &SKY_FACTS,
    values: &[],
    replaced: &[SUN],
};

/// B and C are A, and D is both.
pub(crate) const DIAMOND: Base = Base {
    components: &[],
    names: &["A", "B", "C", "D"],
    facts: &[
        (65, IS_A, Some(64)),
        (66, IS_A, Some(64)),
        (67, IS_A, Some(65)),
        (67, IS_A, Some(66)),
    ],
    values: &[],
    replaced: &[],
};

/// A box holds a weight: a pair has the values of its target's type, as its relationship has none.
const BOX: Base = Base {
    components: &["Weight"],
    names: &["Holds", "Box"],
    facts: &[],
    values: &[((66, 65, Some(64)), [7, 1])],
    replaced: &[],
};

/// A ship with a hull, a mass and fuel, of which an instance is read to have the hull, copies the mass, and has no
/// fuel.
const SHIP: Base = Base {
    components: &["Mass", "Fuel"],
    names: &["Hull", "Ship", "One"],
    facts: &[
        (66, ON_INSTANTIATE, Some(INHERIT)),
        (65, ON_INSTANTIATE, Some(DONT_INHERIT)),
        (67, PREFAB, None),
        (67, 66, None),
    ],
    values: &[((67, 64, None), [9, 1]), ((67, 65, None), [5, 1])],
    replaced: &[],
};

/// The instance of the ship.
const INSTANCE: [Fact; 1] = [(68, IS_A, Some(67))];

/// Whom a query finds by two groups that each have a variable of their own.
const SIBLINGS: &str = "Position, !{ (Likes,$x), Planet($x) }, !{ (ChildOf,$x), Position($x) }";

/// A query of 32 equal terms, and its row, with a field for each.
const PLANETS: &str = "\
Planet, Planet, Planet, Planet, Planet, Planet, Planet, Planet, \
Planet, Planet, Planet, Planet, Planet, Planet, Planet, Planet, \
Planet, Planet, Planet, Planet, Planet, Planet, Planet, Planet, \
Planet, Planet, Planet, Planet, Planet, Planet, Planet, Planet";

const PLANETS_ROW: &str = "row $this=Earth \
[Planet@Earth] [Planet@Earth] [Planet@Earth] [Planet@Earth] [Planet@Earth] [Planet@Earth] [Planet@Earth] \
[Planet@Earth] [Planet@Earth] [Planet@Earth] [Planet@Earth] [Planet@Earth] [Planet@Earth] [Planet@Earth] \
[Planet@Earth] [Planet@Earth] [Planet@Earth] [Planet@Earth] [Planet@Earth] [Planet@Earth] [Planet@Earth] \
[Planet@Earth] [Planet@Earth] [Planet@Earth] [Planet@Earth] [Planet@Earth] [Planet@Earth] [Planet@Earth] \
[Planet@Earth] [Planet@Earth] [Planet@Earth] [Planet@Earth]\nrows 1\n";

static ROWS: [WorkedRow; 35] = [
    WorkedRow {
        base: SKY,
        more: &[],
        query: "Position",
        answer: "row $this=Sun [Position@Sun=0,0]\nrow $this=Earth [Position@Earth=10,-3]\nrows 2\n",
        plans: 1,
    },
    WorkedRow {
        base: SKY,
        more: &[],
        query: "Position(up)",
        answer: "row $this=Earth [Position@Sun=0,0]\nrow $this=Moon [Position@Earth=10,-3]\nrows 2\n",
        plans: 1,
    },
    WorkedRow {
        base: SKY,
        more: &[],
        query: "Position(up ChildOf)",
        answer: "row $this=Earth [Position@Sun=0,0]\nrow $this=Moon [Position@Earth=10,-3]\nrows 2\n",
        plans: 1,
    },
    WorkedRow {
        base: SKY,
        more: &[],
        query: "(ChildOf,$p), Planet($p)",
        answer: "row $this=Moon $p=Earth [(ChildOf,Earth)@Moon] [Planet@Earth]\nrows 1\n",
        plans: 2,
    },
    WorkedRow {
        base: DIAMOND,
        more: &[],
        query: "IsA(D,$x)",
        answer: "row $x=A [(IsA,A)@D]\nrow $x=B [(IsA,B)@D]\nrow $x=C [(IsA,C)@D]\nrow $x=D [(IsA,D)@D]\nrows 4\n",
        plans: 2,
    },
    WorkedRow {
        base: DIAMOND,
        more: &[],
        query: "(IsA,A)",
        answer: "row $this=A [(IsA,A)@A]\nrow $this=B [(IsA,A)@B]\nrow $this=C [(IsA,A)@C]\nrow $this=D [(IsA,A)@D]\nrows 4\n",
        plans: 1,
    },
    WorkedRow {
        base: DIAMOND,
        more: &[],
        query: "(IsA,*)",
        answer: "row $this=B [(IsA,A)@B]\nrow $this=C [(IsA,A)@C]\nrow $this=D [(IsA,B)@D]\nrow $this=D [(IsA,C)@D]\nrows 4\n",
        plans: 1,
    },
    WorkedRow {
        base: SKY,
        more: &[(EARTH, LIKES, Some(SUN)), (EARTH, LIKES, Some(MOON))],
        query: "(Likes,*)",
        answer: "row $this=Earth [(Likes,Sun)@Earth]\nrow $this=Earth [(Likes,Moon)@Earth]\nrows 2\n",
        plans: 1,
    },
    WorkedRow {
        base: SKY,
        more: &[(EARTH, LIKES, Some(SUN)), (EARTH, LIKES, Some(MOON))],
        query: "(Likes,_)",
        answer: "row $this=Earth [(Likes,Sun)@Earth]\nrows 1\n",
        plans: 1,
    },
    WorkedRow {
        base: SKY,
        more: &[(EARTH, LIKES, Some(SUN))],
        query: "(*,$x), Planet",
        answer: "row $this=Earth $x=Sun [(ChildOf,Sun)@Earth] [Planet@Earth]\nrow $this=Earth $x=Sun [(Likes,Sun)@Earth] [Planet@Earth]\nrows 2\n",
        plans: 2,
    },
    WorkedRow {
        base: SKY,
        more: &[(EARTH, LIKES, Some(MOON)), (SUN, LIKES, Some(EARTH))],
        query: "!(Likes,$x), (ChildOf,$x)",
        answer: "row $this=Earth $x=Sun [(ChildOf,Sun)@Earth]\nrow $this=Moon $x=Earth [(ChildOf,Earth)@Moon]\nrows 2\n",
        plans: 1,
    },
    WorkedRow {
        base: SKY,
        more: &[(EARTH, LIKES, Some(MOON)), (SUN, LIKES, Some(EARTH))],
        query: "Position, !{ (Likes,$x), Planet($x) }",
        answer: "row $this=Earth [Position@Earth=10,-3]\nrows 1\n",
        plans: 2,
    },
    WorkedRow {
        base: SKY,
        more: &[(EARTH, LIKES, Some(MOON)), (SUN, LIKES, Some(EARTH))],
        query: SIBLINGS,
        answer: "rows 0\n",
        plans: 8,
    },
    WorkedRow {
        base: SKY,
        more: &[(EARTH, LIKES, Some(MOON))],
        query: SIBLINGS,
        answer: "row $this=Sun [Position@Sun=0,0]\nrows 1\n",
        plans: 8,
    },
    WorkedRow {
        base: SKY,
        more: &[(MOON, PLANET, None)],
        query: "Position || Planet",
        answer: "row $this=Sun [Position@Sun=0,0]\nrow $this=Earth [Position@Earth=10,-3]\nrow $this=Moon [Planet@Moon]\nrows 3\n",
        plans: 1,
    },
    WorkedRow {
        base: SKY,
        more: &[
            (EARTH, LIKES, Some(MOON)),
            (EARTH, LIKES, Some(SUN)),
            (SUN, LIKES, Some(SUN)),
        ],
        query: "Position, (ChildOf,$x) || (Likes,$x)",
        answer: "row $this=Sun $x=Sun [Position@Sun=0,0] [(Likes,Sun)@Sun]\nrow $this=Earth $x=Sun [Position@Earth=10,-3] [(ChildOf,Sun)@Earth]\nrow $this=Earth $x=Moon [Position@Earth=10,-3] [(Likes,Moon)@Earth]\nrows 3\n",
        plans: 2,
    },
    WorkedRow {
        base: SKY,
        more: &[
            (EARTH, LIKES, Some(MOON)),
            (EARTH, LIKES, Some(SUN)),
            (MOON, DISABLED, None),
        ],
        query: "Planet($y), ChildOf($y,$this) || Likes($y,$this)",
        answer: "row $this=Sun $y=Earth [Planet@Earth] [(ChildOf,Sun)@Earth]\nrows 1\n",
        plans: 2,
    },
    WorkedRow {
        base: SKY,
        more: &[(EARTH, LIKES, Some(EARTH)), (EARTH, LIKES, Some(SUN))],
        query: "(Likes,$this)",
        answer: "row $this=Earth [(Likes,Earth)@Earth]\nrows 1\n",
        plans: 1,
    },
    WorkedRow {
        base: SKY,
        more: &[],
        query: "Position, $this != Sun",
        answer: "row $this=Earth [Position@Earth=10,-3]\nrows 1\n",
        plans: 1,
    },
    WorkedRow {
        base: SKY,
        more: &[],
        query: "Position(Earth|up)",
        answer: "row [Position@Sun=0,0]\nrows 1\n",
        plans: 1,
    },
    WorkedRow {
        base: SKY,
        more: &[],
        query: "Position(self|up)",
        answer: "row $this=Sun [Position@Sun=0,0]\nrow $this=Earth [Position@Earth=10,-3]\nrow $this=Moon [Position@Earth=10,-3]\nrows 3\n",
        plans: 1,
    },
    WorkedRow {
        base: SKY,
        more: &[],
        query: "Position(self|up), !Planet",
        answer: "row $this=Sun [Position@Sun=0,0]\nrow $this=Moon [Position@Earth=10,-3]\nrows 2\n",
        plans: 2,
    },
    WorkedRow {
        base: SKY,
        more: &[],
        query: "Position($this|up(ChildOf))",
        answer: "row $this=Earth [Position@Sun=0,0]\nrow $this=Moon [Position@Earth=10,-3]\nrows 2\n",
        plans: 1,
    },
    WorkedRow {
        base: SKY,
        more: &[(EARTH, DISABLED, None)],
        query: "Position",
        answer: "row $this=Sun [Position@Sun=0,0]\nrows 1\n",
        plans: 1,
    },
    WorkedRow {
        base: SKY,
        more: &[(EARTH, DISABLED, None)],
        query: "Position, ?Disabled",
        answer: "row $this=Sun [Position@Sun=0,0] [-]\nrow $this=Earth [Position@Earth=10,-3] [Disabled@Earth]\nrows 2\n",
        plans: 1,
    },
    WorkedRow {
        base: SKY,
        more: &[],
        query: "Planet(Earth)",
        answer: "row [Planet@Earth]\nrows 1\n",
        plans: 1,
    },
    WorkedRow {
        base: SKY,
        more: &[],
        query: "Planet(Sun)",
        answer: "rows 0\n",
        plans: 1,
    },
    WorkedRow {
        base: BOX,
        more: &[],
        query: "(Holds,Weight)",
        answer: "row $this=Box [(Holds,Weight)@Box=7,1]\nrows 1\n",
        plans: 1,
    },
    WorkedRow {
        base: BOX,
        more: &[],
        query: "[none] (Holds,Weight)",
        answer: "row $this=Box [(Holds,Weight)@Box]\nrows 1\n",
        plans: 1,
    },
    WorkedRow {
        base: SHIP,
        more: &INSTANCE,
        query: "Mass",
        answer: "row $this=One [Mass@One=9,1]\nrows 1\n",
        plans: 1,
    },
    WorkedRow {
        base: SHIP,
        more: &INSTANCE,
        query: "Hull",
        answer: "row $this=One [Hull@Ship]\nrows 1\n",
        plans: 1,
    },
    WorkedRow {
        base: SHIP,
        more: &INSTANCE,
        query: "Hull(self)",
        answer: "rows 0\n",
        plans: 1,
    },
    WorkedRow {
        base: SHIP,
        more: &INSTANCE,
        query: "Fuel",
        answer: "rows 0\n",
        plans: 1,
    },
    WorkedRow {
        base: SKY,
        more: &[],
        query: PLANETS,
        answer: PLANETS_ROW,
        plans: 0,
    },
    WorkedRow {
        base: EMPTY_SKY,
        more: &[],
        query: "Position",
        answer: "rows 0\n",
        plans: 1,
    },
];

/// Makes the entities of a world, with their facts, and replaces some.
pub(crate) fn fill(alloc: Global, world: &mut World, base: &Base) -> Result<(), CommandError> {
    for name in base.components {
        component(alloc, world, name)?;
    }
    name_all(world, base.names)?;
    add_all(world, base.facts)?;
    set_all(world, base.values)?;
    replace_all(world, base.replaced)
}

fn try_row(rt: &impl Abort, alloc: Global, world: &mut World, row: &WorkedRow) -> Result<(), Fail> {
    fill(alloc, world, &row.base)?;
    add_all(world, row.more)?;
    compare(rt, alloc, world, row.query, row.answer);
    give_up_anywhere(rt, alloc, world, row)?;
    try_orders(rt, alloc, world, row)
}

#[test]
fn worked_rows_come_in_each_way_and_are_given_up_anywhere(rt: HostRuntime) -> Result<(), Fail> {
    for row in &ROWS {
        let mut world = new_world(&rt)?;
        let done = try_row(&rt, rt.alloc(), &mut world, row);
        drop(world);
        done?;
    }
    Ok(())
}
