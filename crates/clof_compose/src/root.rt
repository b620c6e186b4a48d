//! The value at the root of a composed lock.
ghost use Rattle.std.specs.Prelude.{◌≡◌};
ghost use Rattle.std.specs.Borrow.{Lends, sem};
ghost use Rattle.clof_compose.specs.Roots.{trail_of, payload_of, with_payload};
ghost use Rattle.clof_compose.specs.contracts.root.Root.{the_row};

use keep_local::Trail;
use lock_rules::Payload;

/// The turns of the lock's callers, and what they work on.
#[derive(Drop)]
pub struct Root<P> {
    pub(crate) trail: Trail,
    pub(crate) payload: P,
}

impl<P: Payload> Root<P> {
    /// A root of this trail and this payload.
    pub fn new(trail: Trail, payload: P) -> Root<P>
        ensures trail { trail_of result ≡ trail }
        ensures payload { payload_of result ≡ payload }
    {
        Root { trail, payload }
    }

    /// The trail, lent.
    pub fn trail(&self) -> &Trail
        ensures { result.now ≡ trail_of self.now }
    {
        &self.trail
    }

    /// The payload, lent.
    pub fn payload(&self) -> &P
        ensures { result.now ≡ payload_of self.now }
    {
        &self.payload
    }

    /// Lends the payload to be changed. The trail stays.
    pub fn payload_mut(&mut self) -> &mut P
        ensures* writes_back { sem 𝓛 (Lends (the_row P.row) P.row self.entry result (with_payload self.old)) }
        ensures value { result.now ≡ payload_of self.old }
    {
        &mut self.payload
    }

    /// The trail and the payload.
    pub fn into_parts(self) -> (Trail, P)
        ensures trail { result.0 ≡ trail_of self }
        ensures payload { result.1 ≡ payload_of self }
    {
        let Root { trail, payload } = self;
        (trail, payload)
    }
}
