//! The value that a lock keeps in the trials.
ghost use Rattle.std.specs.Prelude.{◌≡◌, false};
ghost use Rattle.lock_rules.specs.Tag.{leaf};
ghost use Rattle.lock_rules.specs.declared.step.Answer.TheVariants.{Open};

use lock_rules::Cargo;

/// A number that its holder may park where somebody is queued behind. It may always stand at home, and it keeps no answer.
#[derive(Drop)]
pub struct Parcel {
    pub count: u64,
    pub parked: bool,
    /// How often the holders of `hold_by` parked it.
    pub parkings: u64,
    /// How often they found it parked.
    pub unparkings: u64,
    /// Whether the first holder of all, where it was asked to park, saw that another waits.
    pub met: bool,
    /// How often `Slow` told a caller `Not` before it asked the lock inside, in `poll` and in the calls that release.
    pub waits: u64,
}

impl Parcel {
    /// A parcel with this number that nobody has parked.
    pub fn new(count: u64) -> Parcel
        ensures number { result.count ≡ count }
        ensures unparked { (result.parked ≡ false) × (result.parkings ≡ 0) × (result.unparkings ≡ 0) × (result.met ≡ false) }
        ensures unwaited { result.waits ≡ 0 }
    {
        Parcel {
            count,
            parked: false,
            parkings: 0,
            unparkings: 0,
            met: false,
            waits: 0,
        }
    }
}

impl Cargo for Parcel {
    ghost tag = { λ _. leaf 0 };

    ghost fit = { λ _. Unit {0} };

    ghost parked = { λ p. p.parked };

    ghost said = { λ _. Open };

    fn parked(&self) -> bool {
        self.parked
    }
}
