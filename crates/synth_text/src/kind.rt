//! The kinds of objects, and how they are named.

/// The kind of an object of a topology.
#[derive(Clone, Copy, Debug, PartialEq, Eq)]
pub enum Kind {
    /// The whole machine, the root.
    Machine,
    /// A package, a processor in a socket.
    Package,
    /// A die of a package.
    Die,
    /// A group of objects without a more special kind.
    Group,
    /// A level 5 cache.
    L5,
    /// A level 4 cache.
    L4,
    /// A level 3 cache.
    L3,
    /// A level 2 cache.
    L2,
    /// A level 1 data cache.
    L1d,
    /// A level 1 instruction cache.
    L1i,
    /// A core.
    Core,
    /// A processing unit, a hardware thread.
    Pu,
    /// A node of memory.
    NumaNode,
}

impl Kind {
    ghost use Rattle.std.specs.Prelude.{◌≡◌};
    ghost use Rattle.synth_text.specs.Kinds.{is_cache, same_kind, short_name_of, long_name_of};

    /// Whether objects of this kind are caches, which have a size.
    pub fn is_cache(self) -> bool
        ensures { result ≡ is_cache self }
    {
        matches!(
            self,
            Kind::L5 | Kind::L4 | Kind::L3 | Kind::L2 | Kind::L1d | Kind::L1i
        )
    }

    /// Whether another kind is this one.
    #[tactic(auto, unfolding(crate::specs::Kinds::same_kind))]
    pub fn is_same(self, other: Kind) -> bool
        ensures { result ≡ same_kind self other }
    {
        self as u8 == other as u8
    }

    /// The name that a printed object has, without a Group's number.
    pub fn short_name(self) -> &'static [u8]
        ensures { result.now ≡ short_name_of self }
    {
        match self {
            Kind::Machine => b"Machine",
            Kind::Package => b"Package",
            Kind::Die => b"Die",
            Kind::Group => b"Group",
            Kind::L5 => b"L5",
            Kind::L4 => b"L4",
            Kind::L3 => b"L3",
            Kind::L2 => b"L2",
            Kind::L1d => b"L1d",
            Kind::L1i => b"L1i",
            Kind::Core => b"Core",
            Kind::Pu => b"PU",
            Kind::NumaNode => b"NUMANode",
        }
    }

    /// The name that a description and an option have, without a Group's number.
    pub fn long_name(self) -> &'static [u8]
        ensures { result.now ≡ long_name_of self }
    {
        match self {
            Kind::L5 => b"L5Cache",
            Kind::L4 => b"L4Cache",
            Kind::L3 => b"L3Cache",
            Kind::L2 => b"L2Cache",
            Kind::L1d => b"L1dCache",
            Kind::L1i => b"L1iCache",
            other => other.short_name(),
        }
    }
}
