//! A slot for each job, in the order of their numbers.
ghost use Rattle.std.specs.Prelude.{◌≡◌, ◌<◌, ◌≤◌, [], ℕ, None, Some, length, slice_get, slice_set};
ghost use Rattle.std.specs.Prelude.{vec_capacity};
ghost use Rattle.lock_rules.specs.Tag.{Tag};
ghost use Rattle.cohort_desks.specs.Slots.{AreFit, AreOwn, HasGathered, HasMoved, IsThere};

use cohort_queue::Numbered;

/// Puts a job into its slot.
pub(crate) fn put_one<J: Numbered>(slots: Vec<Option<J>>, job: J) -> Vec<Option<J>>
    requires within { J.number job < length slots.items }
    ensures put { result.items ≡ slice_set slots.items (J.number job) (Some job) }
{
    let mut slots = slots;
    let place = job.number() as usize;
    slots[place] = Some(job);
    slots
}

/// Puts jobs into their slots.
pub(crate) fn put_all<J: Numbered>(slots: Vec<Option<J>>, jobs: Vec<J>) -> Vec<Option<J>>
    requires within { (i : ℕ) (job : J) → slice_get jobs.items i ≡ Some job → J.number job < length slots.items }
    ensures many { length result.items ≡ length slots.items }
    ensures own { (tag : Tag) → AreFit J.number J.tag tag (length slots.items) jobs.items
        → AreOwn J.number J.tag tag slots.items → AreOwn J.number J.tag tag result.items }
    ensures there { (tag : Tag) → AreFit J.number J.tag tag (length slots.items) jobs.items
        → (x : ℕ) → IsThere J.number J.tag tag slots.items jobs.items x → IsThere J.number J.tag tag result.items [] x }
{
    let mut slots = slots;
    let mut jobs = jobs;
    while let Some(job) = jobs.pop() {
        slots = put_one(slots, job);
    }
    slots
}

/// Moves the job in a slot out of it.
pub fn take_out<J: Numbered>(slots: Vec<Option<J>>, place: usize) -> (Vec<Option<J>>, Option<J>)
    requires within { place < length slots.items }
    ensures emptied { result.0.items ≡ slice_set slots.items place None }
    ensures job { slice_get slots.items place ≡ Some result.1 }
{
    let mut slots = slots;
    let job = slots[place].take();
    (slots, job)
}

// Moves the job in a slot, where there is one, to the end of a list that has room for it.
fn move_out<J: Numbered>(
    slots: Vec<Option<J>>,
    place: usize,
    mut list: Vec<J>,
) -> (Vec<Option<J>>, Vec<J>)
    requires within { place < length slots.items }
    requires room { length list.items < vec_capacity list }
    ensures moved { HasMoved slots.items list.items place result.0.items result.1.items }
    ensures room { vec_capacity result.1 ≡ vec_capacity list }
{
    let (slots, job) = take_out(slots, place);
    if let Some(job) = job {
        list.push_reserved(job);
        return (slots, list);
    }
    (slots, list)
}

// The same where the slot has this home.
fn move_home<J: Numbered>(
    slots: Vec<Option<J>>,
    homes: &[u32],
    node: usize,
    place: usize,
    list: Vec<J>,
) -> (Vec<Option<J>>, Vec<J>)
    requires homes { length homes.now ≡ length slots.items }
    requires within { place < length slots.items }
    requires room { length list.items < vec_capacity list }
    ensures moved { HasMoved slots.items list.items place result.0.items result.1.items }
    ensures room { vec_capacity result.1 ≡ vec_capacity list }
{
    if homes[place] as usize == node {
        return move_out(slots, place, list);
    }
    (slots, list)
}

/// Moves the jobs with this home out of their slots, in order, into an empty list that has room for all.
pub(crate) fn gather<J: Numbered>(
    slots: Vec<Option<J>>,
    homes: &[u32],
    node: usize,
    list: Vec<J>,
) -> (Vec<Option<J>>, Vec<J>)
    requires homes { length homes.now ≡ length slots.items }
    requires empty { list.items ≡ [] }
    requires room { length homes.now ≤ vec_capacity list }
    ensures gathered { (tag : Tag) → AreOwn J.number J.tag tag slots.items
        → HasGathered J.number J.tag tag slots.items result.0.items result.1.items }
{
    let mut slots = slots;
    let mut list = list;
    for place in 0..homes.len() {
        (slots, list) = move_home(slots, homes, node, place, list);
    }
    (slots, list)
}
