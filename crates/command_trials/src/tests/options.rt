//! What `calc` prints with every choice of options that go together. The answers are those of hwloc-calc 2.9. Each table is
//! checked once more with words in front of each row that change no answer.
use super::{Tables, answers};
use std::test::Fail;

const SETS: Tables = &[(
    "Core:4 PU:2(indexes=2*4:1*2)",
    "pu:2-4|0x00000026
--taskset pu:2-4|0x26
--single pu:2-4|0x00000002
--single --taskset pu:2-4|0x2
-p pu:2-4|0x0000001c
-p --taskset pu:2-4|0x1c
-p --single pu:2-4|0x00000004
-p --single --taskset pu:2-4|0x4",
)];

#[test]
fn sets(rt: HostRuntime) -> Result<(), Fail> {
    answers(&rt, rt.alloc(), "calc * ", SETS)?;
    answers(&rt, rt.alloc(), "calc * --sep / ", SETS)
}

const OBJECTS: Tables = &[(
    "Core:4 PU:2(indexes=2*4:1*2)",
    "-I pu pu:2-4|2,3,4
-I pu --sep / pu:2-4|2/3/4
-I pu --single pu:2-4|2
-I pu --single --sep / pu:2-4|2
-I pu -p pu:2-4|4,2,3
-I pu -p --sep / pu:2-4|4/2/3
-I pu -p --single pu:2-4|2
-I pu -p --single --sep / pu:2-4|2
-N core pu:2-4|2
-N core --sep / pu:2-4|2
-N core --single pu:2-4|1
-N core --single --sep / pu:2-4|1
-N core -p pu:2-4|3
-N core -p --sep / pu:2-4|3
-N core -p --single pu:2-4|1
-N core -p --single --sep / pu:2-4|1
-H core.pu pu:2-4|Core:1.PU:0 Core:1.PU:1 Core:2.PU:0
-H core.pu --sep / pu:2-4|Core:1.PU:0/Core:1.PU:1/Core:2.PU:0
-H core.pu --single pu:2-4|Core:1.PU:0
-H core.pu --single --sep / pu:2-4|Core:1.PU:0
-H core.pu -p pu:2-4|Core:0.PU:4 Core:2.PU:2 Core:3.PU:3
-H core.pu -p --sep / pu:2-4|Core:0.PU:4/Core:2.PU:2/Core:3.PU:3
-H core.pu -p --single pu:2-4|Core:2.PU:2
-H core.pu -p --single --sep / pu:2-4|Core:2.PU:2
--largest pu:2-4|Core:1 PU:4
--largest --sep / pu:2-4|Core:1/PU:4
--largest --single pu:2-4|PU:2
--largest --single --sep / pu:2-4|PU:2
--largest -p pu:2-4|PU:4 PU:2 PU:3
--largest -p --sep / pu:2-4|PU:4/PU:2/PU:3
--largest -p --single pu:2-4|PU:2
--largest -p --single --sep / pu:2-4|PU:2",
)];

#[test]
fn objects(rt: HostRuntime) -> Result<(), Fail> {
    answers(&rt, rt.alloc(), "calc * ", OBJECTS)?;
    answers(&rt, rt.alloc(), "calc * --taskset ", OBJECTS)
}
