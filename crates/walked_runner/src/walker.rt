//! A caller of a walk.
use clof_compose::Composed;
use keep_local::Share;
use mc_text::Commands;
use threaded_runner::Book;

/// Where a caller stands, with its token. It is stepping only inside a step.
#[derive(Drop)]
pub enum State<P, Q, H, L> {
    Idle(P),
    Queued(Q),
    Holding(H),
    Leaving(L),
    Stepping,
}

/// What a caller has to do: its share, the commands of its section that it hasn't given, and whether it stopped before they ended, which
/// is for want of memory.
#[derive(Drop)]
pub struct Task<'a> {
    pub(crate) share: Share,
    pub(crate) commands: Commands<'a>,
    pub(crate) stopped: bool,
}

/// A caller of a walk.
#[derive(Drop)]
pub struct Walker<'a, P, Q, H, L> {
    pub(crate) state: State<P, Q, H, L>,
    pub(crate) task: Task<'a>,
}

// The state of a caller of C.
pub(crate) type StateIn<'a, C> = State<
    <C as Composed<Book<'a>>>::Pass,
    <C as Composed<Book<'a>>>::Queue,
    <C as Composed<Book<'a>>>::Held,
    <C as Composed<Book<'a>>>::Leave,
>;

// A caller of C.
pub(crate) type WalkerIn<'a, C> = Walker<
    'a,
    <C as Composed<Book<'a>>>::Pass,
    <C as Composed<Book<'a>>>::Queue,
    <C as Composed<Book<'a>>>::Held,
    <C as Composed<Book<'a>>>::Leave,
>;
