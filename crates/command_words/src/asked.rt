//! What words ask for.
ghost use Rattle.std.specs.Prelude.{◌<◌, ◌≤◌, ◌^◌, IfSome, length, vec_len};
ghost use Rattle.std.proofs.Props.{props};

/// What the words ask for.
#[derive(Drop)]
pub enum Asked<'a> {
    /// Serve the sections of the input, whose callers stand on the topology of a description.
    Run(Running<'a>),
    /// Print a set, read as a list or in hexadecimal.
    Set { list: bool, text: &'a [u8] },
    /// Print the tree of a description, or its canonical text.
    Topo { export: bool, text: &'a [u8] },
    /// Answer a question on the set that locations select.
    Calc(Calculation<'a>),
    /// Print masks, shared out over the objects of a description.
    Distrib(Distribution<'a>),
    /// Choose the levels of a lock for the trace that the input holds.
    Select(Selection<'a>),
    /// Serve the sections of the load test of a number.
    Drill(u32),
    /// Tell whether the text behind an input is that of a run.
    Check(Checking<'a>),
}

/// A run of the sections of the input.
#[derive(Clone, Copy)]
pub struct Running<'a> {
    /// The levels of the lock, the lowest first: `machine` where none are given.
    pub levels: &'a [u8],
    /// The kinds of its basic locks, where they are given.
    pub locks: Option<&'a [u8]>,
    /// How often a level below the top keeps the lock: 128 where nothing is given.
    pub keep: &'a [u8],
    /// The callers are stepped on one thread.
    pub walk: bool,
    /// How the callers share threads, where they do; else each has one of its own.
    pub sharing: Option<Sharing>,
    /// The callers keep receipts of their turns.
    pub receipts: bool,
    /// The description of the topology: `PU:1` where none is given.
    pub description: &'a [u8],
    pub ghost short_levels: { length levels.now < 2 ^ 32 },
    pub ghost short_locks: { IfSome locks (λ text. length text.now < 2 ^ 32) } by { Prim.hlevel props },
    pub ghost short_keep: { length keep.now < 2 ^ 32 },
}

/// How the callers of a run share threads.
#[derive(Clone, Copy)]
pub struct Sharing {
    /// How many threads there are, from 1 to 256.
    pub threads: u32,
    /// How many commands of a caller a thread serves at a time, from 1 to 65,535: 1 where nothing is given.
    pub quantum: u32,
    pub ghost some_threads: { 0 < threads },
    pub ghost few_threads: { threads ≤ 256 },
    pub ghost some_commands: { 0 < quantum },
    pub ghost few_commands: { quantum ≤ 65535 },
}

/// What is asked of a set, with types by their names.
#[derive(Clone, Copy)]
pub enum CalcQuestion<'a> {
    /// The set itself.
    Set,
    /// The objects of a type that have a PU of it.
    Intersect(&'a [u8]),
    /// How many objects of a type have a PU of it.
    NumberOf(&'a [u8]),
    /// The chains of objects of types, between whose names a dot stands.
    Hierarchical(&'a [u8]),
    /// The largest objects inside it.
    Largest,
}

/// A question on the set that locations select.
#[derive(Drop)]
pub struct Calculation<'a> {
    /// What is asked of the set.
    pub question: CalcQuestion<'a>,
    /// PUs and NUMANodes are numbered by their physical numbers.
    pub physical: bool,
    /// The set has its first number alone.
    pub single: bool,
    /// Sets are printed in taskset's form.
    pub taskset: bool,
    /// What stands between two items of an answer, where that is given.
    pub separator: Option<&'a [u8]>,
    /// The description of the topology.
    pub description: &'a [u8],
    /// The locations, in order.
    pub locations: Vec<&'a [u8]>,
    pub ghost numbered: { vec_len locations < 2 ^ 32 },
}

/// Where a distribution starts and ends.
#[derive(Clone, Copy)]
pub enum Depths<'a> {
    /// At the depths of two names; where one is absent, at depth 0 and at that of the PUs.
    Between {
        from: Option<&'a [u8]>,
        to: Option<&'a [u8]>,
    },
    /// At the depth of one name.
    At(&'a [u8]),
}

/// Masks that are shared out over the objects of a description.
#[derive(Clone, Copy)]
pub struct Distribution<'a> {
    /// How many masks.
    pub masks: u32,
    /// Where it starts and ends.
    pub depths: Depths<'a>,
    /// Each mask has its first number alone.
    pub single: bool,
    /// Lists of objects are taken from their ends.
    pub reverse: bool,
    /// Masks are printed in taskset's form.
    pub taskset: bool,
    /// The description of the topology.
    pub description: &'a [u8],
}

/// A choice of the levels of a lock.
#[derive(Clone, Copy)]
pub struct Selection<'a> {
    /// The weights of the depths, where they are given.
    pub weights: Option<&'a [u8]>,
    /// How often a level keeps the lock.
    pub keep: &'a [u8],
    /// The description of the topology.
    pub description: &'a [u8],
}

/// The run whose printed text is checked: one of `run` with the same levels, keep and description, and its own locks.
#[derive(Clone, Copy)]
pub struct Checking<'a> {
    /// The levels of the lock, the lowest first: `machine` where none are given.
    pub levels: &'a [u8],
    /// How often a level below the top keeps the lock: 128 where nothing is given.
    pub keep: &'a [u8],
    /// The description of the topology: `PU:1` where none is given.
    pub description: &'a [u8],
    pub ghost short_levels: { length levels.now < 2 ^ 32 },
    pub ghost short_keep: { length keep.now < 2 ^ 32 },
}

impl<'a> Checking<'a> {
    ghost use Rattle.std.specs.Prelude.{◌≡◌};
    ghost use Rattle.command_words.specs.Asked.{as_run};
    ghost use Rattle.command_words.specs.Plain.{plain_checking, plain_running};

    /// The run as the words of `run` ask for it.
    pub fn as_run(self) -> Running<'a>
        ensures { plain_running result ≡ as_run (plain_checking self.entry) }
    {
        Running {
            levels: self.levels,
            locks: None,
            keep: self.keep,
            walk: false,
            sharing: None,
            receipts: false,
            description: self.description,
        }
    }
}
