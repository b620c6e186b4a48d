//! The codes.
ghost use Rattle.std.specs.Prelude.{◌≡◌};
ghost use Rattle.clof_c.specs.Codes.{code_of, made_code, waiters_code};

use lock_callers::Reply;
use lock_handles::Made;

/// The code of what a call answered.
pub fn reply_code(answer: Option<Reply>) -> u32
    ensures code { result ≡ code_of answer }
{
    match answer {
        Some(Reply::Done) => 0,
        Some(Reply::NotYet) => 1,
        Some(Reply::Elsewhere) => 2,
        None => 3,
    }
}

/// The code of whether anybody waits.
pub fn told_code(answer: Option<Option<bool>>) -> u32
    ensures code { result ≡ waiters_code answer }
{
    match answer {
        Some(Some(false)) => 0,
        Some(Some(true)) => 1,
        Some(None) => 2,
        None => 3,
    }
}

/// The code of what making answered.
pub fn making_code(made: Made) -> u32
    ensures code { result ≡ made_code made }
{
    match made {
        Made::Done => 0,
        Made::NoMemory => 4,
        Made::InUse => 5,
        Made::Refused => 6,
    }
}
