//! When items expire.
ghost use Rattle.std.specs.Prelude.{◌≡◌};
ghost use Rattle.kv_history.specs.Expiry.{expiry_of, is_due, same_expiry};

/// When an item expires.
#[derive(Clone, Copy)]
pub(crate) enum Expiry {
    Never,
    At(u64),
}

// The greatest expiry time that counts from the moment on: 30 days, in seconds. A greater one is a moment.
const RELATIVE_LIMIT: u32 = 2_592_000;

/// When an item expires that is stored or touched at a moment with this expiry time.
pub(crate) fn expiry_of(moment: u32, exptime: i32) -> Expiry
    ensures { result ≡ expiry_of moment exptime }
{
    let moment = u64::from(moment);
    if exptime < 0 {
        return Expiry::At(moment);
    }
    let time = exptime.unsigned_abs();
    if time == 0 {
        Expiry::Never
    } else if time <= RELATIVE_LIMIT {
        Expiry::At(moment + u64::from(time))
    } else {
        Expiry::At(u64::from(time))
    }
}

impl Expiry {
    /// Whether this is the other one.
    pub fn is_same(self, other: Expiry) -> bool
        ensures { result ≡ same_expiry self other }
    {
        match (self, other) {
            (Expiry::Never, Expiry::Never) => true,
            (Expiry::At(time), Expiry::At(other)) => time == other,
            _ => false,
        }
    }

    /// Whether the moment has come.
    pub fn is_due(self, moment: u32) -> bool
        ensures { result ≡ is_due moment self }
    {
        match self {
            Expiry::Never => false,
            Expiry::At(time) => time <= u64::from(moment),
        }
    }
}
