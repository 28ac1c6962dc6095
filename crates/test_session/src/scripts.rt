//! Scripts: worked ones that show most of what a session does, and some that have each call in them.
use crate::lines::{Line, Named};
use ecs_model::built_ins::{
    CHILD_OF, DISABLED, DONT_INHERIT, EXCLUSIVE, INHERIT, IS_A, ON_INSTANTIATE, PREFAB, SYMMETRIC,
    WITH,
};
use ecs_model::watches::StoredKind;
use ecs_schema::Kind;

/// A script. Of worked scripts the lines that only show or ask something are left out.
#[derive(Clone, Copy)]
pub(crate) struct Script {
    /// The lines with which other scripts begin too, and those after them.
    pub(crate) base: &'static [Line],
    pub(crate) lines: &'static [Line],
    pub(crate) output: Option<Output>,
}

/// What a script prints, without the numbers of the lines that are refused, and how often its monitors are evaluated.
#[derive(Clone, Copy)]
pub(crate) struct Output {
    pub(crate) text: &'static [u8],
    pub(crate) compared: u64,
}

/// What a script prints that prints nothing.
const SILENT: Output = Output {
    text: b"",
    compared: 0,
};

pub(crate) const POSITION: u32 = 64;

pub(crate) const PLANET: u32 = 65;

const SUN: u32 = 67;

pub(crate) const EARTH: u32 = 68;

pub(crate) const MOON: u32 = 69;

/// The entity that is made after those of the system.
pub(crate) const HOT: u32 = 70;

/// The sun with a position, the earth, a planet with one, around it, and the moon around the earth.
const SYSTEM: [Line; 11] = [
    Line::Component("Position", &[("x", Kind::I32), ("y", Kind::I32)]),
    Line::Entity("Planet"),
    Line::Entity("Likes"),
    Line::Entity("Sun"),
    Line::Entity("Earth"),
    Line::Entity("Moon"),
    Line::Add(EARTH, Named::Pair(CHILD_OF, SUN)),
    Line::Add(MOON, Named::Pair(CHILD_OF, EARTH)),
    Line::Set(SUN, Named::Plain(POSITION), &[0, 0]),
    Line::Set(EARTH, Named::Plain(POSITION), &[10, -3]),
    Line::Add(EARTH, Named::Plain(PLANET)),
];

/// The same lines, for tests that are no scripts.
pub(crate) static SYSTEM_LINES: [Line; 11] = SYSTEM;

/// What the others stand on, by itself.
const SYSTEM_ALONE: Script = Script {
    base: &[],
    lines: &SYSTEM,
    output: Some(SILENT),
};

/// The worked script kept-query-through-changes.
const KEPT_QUERY: Script = Script {
    base: &SYSTEM,
    lines: &[
        Line::Store(StoredKind::Kept, "k", "Position, Planet"),
        Line::Rows("k"),
        Line::Entity("Hot"),
        Line::Add(EARTH, Named::Plain(HOT)),
        Line::Rows("k"),
        Line::Delete(HOT),
        Line::Set(MOON, Named::Plain(POSITION), &[4, 4]),
        Line::Rows("k"),
        Line::Add(MOON, Named::Plain(PLANET)),
        Line::Rows("k"),
        Line::Remove(EARTH, Named::Plain(PLANET)),
        Line::Rows("k"),
        Line::Delete(PLANET),
    ],
    output: Some(Output {
        text: b"row $this=Earth [Position@Earth=10,-3] [Planet@Earth]
rows 1
row $this=Earth [Position@Earth=10,-3] [Planet@Earth]
rows 1
row $this=Earth [Position@Earth=10,-3] [Planet@Earth]
rows 1
row $this=Earth [Position@Earth=10,-3] [Planet@Earth]
row $this=Moon [Position@Moon=4,4] [Planet@Moon]
rows 2
row $this=Moon [Position@Moon=4,4] [Planet@Moon]
rows 1
error OfWorld(InUse)
",
        compared: 0,
    }),
};

/// The worked script monitor-through-parents.
const MONITOR_OF_PARENTS: Script = Script {
    base: &SYSTEM,
    lines: &[
        Line::Store(StoredKind::Monitor, "m", "Position(up)"),
        Line::Remove(EARTH, Named::Plain(POSITION)),
        Line::Remove(SUN, Named::Plain(POSITION)),
    ],
    output: Some(Output {
        text: b"leave m Earth\nleave m Moon\n",
        compared: 1,
    }),
};

/// A monitor of which few entities are asked: it is evaluated when it is stored, and not again.
const ASKING_MONITOR: Script = Script {
    base: &SYSTEM,
    lines: &[
        Line::Entity("Hot"),
        Line::Add(SUN, Named::Plain(HOT)),
        Line::Remove(MOON, Named::Pair(CHILD_OF, EARTH)),
        Line::Set(MOON, Named::Plain(POSITION), &[2, 2]),
        Line::Store(StoredKind::Monitor, "m", "Hot(up), Position"),
        Line::Set(EARTH, Named::Plain(POSITION), &[1, 1]),
        Line::Add(MOON, Named::Plain(PLANET)),
        Line::Add(MOON, Named::Pair(CHILD_OF, EARTH)),
        Line::Add(EARTH, Named::Plain(DISABLED)),
    ],
    output: Some(Output {
        text: b"enter m Moon\nleave m Earth\n",
        compared: 1,
    }),
};

/// A monitor that is re-evaluated, since whoever lives may be in its rows.
const WHOLE_ROWS: Script = Script {
    base: &SYSTEM,
    lines: &[
        Line::Store(StoredKind::Monitor, "m", "!Position(up)"),
        Line::Fresh,
        Line::Remove(SUN, Named::Plain(POSITION)),
        Line::Remove(EARTH, Named::Plain(POSITION)),
        Line::Delete(EARTH),
    ],
    output: Some(Output {
        text: b"#70.0
enter m #70.0
enter m Earth
enter m Moon
leave m Earth
leave m Moon
",
        compared: 5,
    }),
};

/// The worked script local-monitor-tells-once.
const LOCAL_MONITOR: Script = Script {
    base: &SYSTEM,
    lines: &[
        Line::Store(StoredKind::Monitor, "m", "Position, !Planet"),
        Line::Remove(EARTH, Named::Plain(PLANET)),
        Line::Add(EARTH, Named::Plain(PLANET)),
        Line::Set(SUN, Named::Plain(POSITION), &[1, 1]),
        Line::Delete(SUN),
    ],
    output: Some(Output {
        text: b"enter m Earth\nleave m Earth\nleave m Sun\n",
        compared: 0,
    }),
};

/// A local monitor that is notified of a new entity.
const NEW_ENTITY: Script = Script {
    base: &SYSTEM,
    lines: &[
        Line::Store(StoredKind::Monitor, "n", "!Planet"),
        Line::Fresh,
    ],
    output: Some(Output {
        text: b"#70.0\nenter n #70.0\n",
        compared: 0,
    }),
};

/// No command is carried out while events wait, and rows are asked of kept queries alone. Here events are delivered
/// where a line says so.
pub(crate) static WAITING_EVENTS: Script = Script {
    base: &SYSTEM,
    lines: &[
        Line::Store(StoredKind::Monitor, "m", "Planet"),
        Line::Add(SUN, Named::Plain(PLANET)),
        Line::Remove(SUN, Named::Plain(PLANET)),
        Line::Entity("Sun"),
        Line::Store(StoredKind::Kept, "", ""),
        Line::Drop("m"),
        Line::Rows("m"),
        Line::Events,
        Line::Remove(SUN, Named::Plain(PLANET)),
        Line::Events,
        Line::Events,
    ],
    output: Some(Output {
        text: b"error EventsPending
error EventsPending
error EventsPending
error EventsPending
error UnknownQuery
enter m Sun
leave m Sun
",
        compared: 0,
    }),
};

/// The worked script delete-parents-and-reuse-indexes.
const DELETED_PARENTS: Script = Script {
    base: &SYSTEM,
    lines: &[
        Line::Delete(SUN),
        Line::Fresh,
        Line::Fresh,
        Line::Add(SUN, Named::Plain(PLANET)),
    ],
    output: Some(Output {
        text: b"#67.1\n#68.1\nerror OfWorld(Dead)\n",
        compared: 0,
    }),
};

/// The worked script stored-query-names.
const QUERY_NAMES: Script = Script {
    base: &SYSTEM,
    lines: &[
        Line::Store(StoredKind::Kept, "k", "Planet"),
        Line::Store(StoredKind::Monitor, "k", "Posit"),
        Line::Store(StoredKind::Kept, "9", "Posit"),
        Line::Drop("z"),
        Line::Drop("k"),
        Line::Delete(PLANET),
    ],
    output: Some(Output {
        text: b"error QueryTaken\nerror OfWorld(BadName)\nerror UnknownQuery\n",
        compared: 0,
    }),
};

const MASS: u32 = 64;

const SOLID: u32 = 65;

const ROCK: u32 = 66;

const HULL: u32 = 65;

const FUEL: u32 = 66;

const SHIP: u32 = 67;

const ONE: u32 = 68;

/// The worked script with-and-event-observers.
const OBSERVERS: Script = Script {
    base: &[],
    lines: &[
        Line::Component("Mass", &[("kg", Kind::U8)]),
        Line::Entity("Solid"),
        Line::Add(SOLID, Named::Pair(WITH, MASS)),
        Line::Entity("Rock"),
        Line::Store(StoredKind::OnAdd, "a", "Mass"),
        Line::Store(StoredKind::OnSet, "s", "Mass"),
        Line::Add(ROCK, Named::Plain(SOLID)),
        Line::Set(ROCK, Named::Plain(MASS), &[255]),
        Line::Set(ROCK, Named::Plain(MASS), &[256]),
        Line::Store(StoredKind::OnRemove, "r", "*"),
        Line::Delete(ROCK),
    ],
    output: Some(Output {
        text: b"add a Rock Mass
set s Rock Mass=255
error OfWorld(Range)
remove r Rock Mass
remove r Rock Solid
",
        compared: 0,
    }),
};

const MARRIED: u32 = 64;

const ANN: u32 = 65;

const BOB: u32 = 66;

const CY: u32 = 67;

/// The worked script symmetric-exclusive-replacement.
const MARRIAGES: Script = Script {
    base: &[],
    lines: &[
        Line::Entity("Married"),
        Line::Add(MARRIED, Named::Plain(SYMMETRIC)),
        Line::Add(MARRIED, Named::Plain(EXCLUSIVE)),
        Line::Entity("Ann"),
        Line::Entity("Bob"),
        Line::Entity("Cy"),
        Line::Add(ANN, Named::Pair(MARRIED, BOB)),
        Line::Add(ANN, Named::Pair(MARRIED, CY)),
        Line::Remove(CY, Named::Pair(MARRIED, ANN)),
    ],
    output: Some(SILENT),
};

/// The worked script instance-copies-and-inherits: the facts of a base come with it.
const INSTANCES: Script = Script {
    base: &[],
    lines: &[
        Line::Component("Mass", &[("kg", Kind::U8)]),
        Line::Entity("Hull"),
        Line::Add(HULL, Named::Pair(ON_INSTANTIATE, INHERIT)),
        Line::Component("Fuel", &[("l", Kind::U8)]),
        Line::Add(FUEL, Named::Pair(ON_INSTANTIATE, DONT_INHERIT)),
        Line::Entity("Ship"),
        Line::Add(SHIP, Named::Plain(PREFAB)),
        Line::Set(SHIP, Named::Plain(MASS), &[9]),
        Line::Add(SHIP, Named::Plain(HULL)),
        Line::Set(SHIP, Named::Plain(FUEL), &[5]),
        Line::Entity("One"),
        Line::Store(StoredKind::OnAdd, "a", "*"),
        Line::Add(ONE, Named::Pair(IS_A, SHIP)),
    ],
    output: Some(Output {
        text: b"add a One Mass\n",
        compared: 0,
    }),
};

/// In a new session the next index needs room.
const FIRST_ENTITY: Script = Script {
    base: &[],
    lines: &[
        Line::New,
        Line::Store(StoredKind::Kept, "k", "Component"),
        Line::Store(StoredKind::Monitor, "m", "!Component"),
        Line::Fresh,
    ],
    output: None,
};

/// Each call of a session that has a query of each kind, and a monitor that asks ancestors.
const EACH_CALL: Script = Script {
    base: &SYSTEM,
    lines: &[
        Line::Store(StoredKind::Kept, "k", "Position, Planet"),
        Line::Store(StoredKind::Monitor, "m", "Position, !Planet"),
        Line::Store(StoredKind::Monitor, "u", "Position(up)"),
        Line::Store(StoredKind::OnAdd, "a", "*"),
        Line::Store(StoredKind::OnRemove, "r", "*"),
        Line::Store(StoredKind::OnSet, "s", "Position"),
        // (a short name may take no memory)
        Line::Entity("MoonOfTheThirdPlanet"),
        Line::Component("Mass", &[("x", Kind::I32)]),
        Line::Fresh,
        Line::Add(MOON, Named::Plain(PLANET)),
        Line::AddNamed("Sun", "Planet"),
        Line::Set(MOON, Named::Plain(POSITION), &[9, 9]),
        Line::Set(MOON, Named::Plain(POSITION), &[8, 8]),
        Line::Sync("k"),
        Line::Rows("k"),
        Line::Remove(EARTH, Named::Plain(PLANET)),
        Line::Delete(SUN),
        Line::Rows("k"),
        Line::Drop("m"),
    ],
    output: None,
};

/// A second query of each kind after the first ones.
const SECOND_QUERIES: Script = Script {
    base: &[
        Line::Component("Position", &[("x", Kind::I32)]),
        Line::Store(StoredKind::Kept, "k", "Position"),
        Line::Store(StoredKind::Monitor, "m", "Position"),
        Line::Store(StoredKind::OnAdd, "a", "*"),
        Line::Store(StoredKind::OnRemove, "r", "*"),
        Line::Store(StoredKind::OnSet, "s", "Position"),
    ],
    lines: &[
        Line::Store(StoredKind::Kept, "kk", "Position"),
        Line::Store(StoredKind::Monitor, "mm", "Position"),
        Line::Store(StoredKind::OnAdd, "aa", "Position"),
        Line::Store(StoredKind::OnRemove, "rr", "Position"),
        Line::Store(StoredKind::OnSet, "ss", "Position"),
    ],
    output: None,
};

const TAG: u32 = 65;

const VESSEL: u32 = 66;

const HOLDS: u32 = 67;

/// An exclusive pair with a value takes the place of another.
const REPLACED_PAIR: Script = Script {
    base: &[],
    lines: &[
        Line::Component("Position", &[("x", Kind::I32)]),
        Line::Entity("Tag"),
        Line::Entity("Vessel"),
        Line::Entity("Holds"),
        Line::Add(HOLDS, Named::Plain(EXCLUSIVE)),
        Line::Set(VESSEL, Named::Plain(POSITION), &[7]),
        Line::Add(VESSEL, Named::Pair(HOLDS, TAG)),
        Line::Set(VESSEL, Named::Pair(HOLDS, POSITION), &[8]),
        Line::Store(StoredKind::Kept, "k", "(Holds,*), Position"),
        Line::Rows("k"),
    ],
    output: Some(Output {
        text: b"row $this=Vessel [(Holds,Position)@Vessel=8] [Position@Vessel=7]\nrows 1\n",
        compared: 0,
    }),
};

/// All scripts in which memory is refused.
pub(crate) static SCRIPTS: [Script; 16] = [
    SYSTEM_ALONE,
    MARRIAGES,
    DELETED_PARENTS,
    INSTANCES,
    REPLACED_PAIR,
    FIRST_ENTITY,
    QUERY_NAMES,
    SECOND_QUERIES,
    KEPT_QUERY,
    OBSERVERS,
    LOCAL_MONITOR,
    NEW_ENTITY,
    MONITOR_OF_PARENTS,
    ASKING_MONITOR,
    WHOLE_ROWS,
    EACH_CALL,
];
