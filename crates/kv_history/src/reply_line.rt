//! Replies of one line.
ghost use Rattle.std.specs.Prelude.{◌≡◌, ◌+◌, ◌++◌, ◌≤◌, [], length, if◌then◌else◌, vec_capacity, vec_len, IsOk};
ghost use Rattle.kv_history.specs.Lines.{fixed_line, written_line};
ghost use Rattle.kv_history.specs.declared.reply_line.FixedLine.TheVariants.{Fault};

use itoa::Buffer;
use mc_text::LineFault;
use out_of_memory::OutOfMemory;

/// A reply of one line.
#[derive(Clone, Copy)]
pub(crate) enum ReplyLine {
    Fixed(FixedLine),
    /// The number that an item holds now.
    Number(u64),
}

/// A line without a number.
#[derive(Clone, Copy)]
pub(crate) enum FixedLine {
    Stored,
    NotStored,
    Exists,
    NotFound,
    Deleted,
    Touched,
    Done,
    /// The moment that is asked for is before the store's.
    Back,
    Version,
    /// The item holds no number.
    NotNumber,
    /// The joined block would be longer than a value may be.
    TooLarge,
    /// The command's line or its block has a fault.
    Fault(LineFault),
}

/// More bytes than any line has.
pub(crate) const LINE_ROOM: usize = 64;

/// Appends a line to a reply, unless it is left out. The reply has room for it, so it needs no memory.
pub(crate) fn tell(reply: &mut Vec<u8>, quiet: bool, line: ReplyLine) -> Result<(), OutOfMemory>
    requires { vec_len reply.old + 64 ≤ vec_capacity reply.old }
    ensures ok { IsOk result }
    ensures told { reply.new.items ≡ reply.old.items ++ (if quiet then [] else written_line line) }
{
    if !quiet {
        push_line(reply, line);
    }
    Ok(())
}

// Appends a line to a reply that has room for it.
fn push_line(reply: &mut Vec<u8>, line: ReplyLine)
    requires { vec_len reply.old + 64 ≤ vec_capacity reply.old }
    ensures { reply.new.items ≡ reply.old.items ++ written_line line }
{
    match line {
        ReplyLine::Fixed(line) => {
            let _ = reply.extend_from_slice(bytes_of(line));
        }
        ReplyLine::Number(number) => {
            let mut buffer = Buffer::new();
            let _ = reply.extend_from_slice(buffer.format(number).as_bytes());
            reply.push_reserved(b'\r');
            reply.push_reserved(b'\n');
        }
    }
}

// The bytes of a line, with its end.
fn bytes_of(line: FixedLine) -> &'static [u8]
    ensures bytes { result.now ≡ fixed_line line }
    ensures short { length result.now ≤ 64 }
{
    match line {
        FixedLine::Stored => b"STORED\r\n",
        FixedLine::NotStored => b"NOT_STORED\r\n",
        FixedLine::Exists => b"EXISTS\r\n",
        FixedLine::NotFound => b"NOT_FOUND\r\n",
        FixedLine::Deleted => b"DELETED\r\n",
        FixedLine::Touched => b"TOUCHED\r\n",
        FixedLine::Done => b"OK\r\n",
        FixedLine::Back => b"CLIENT_ERROR moment goes back\r\n",
        FixedLine::Version => b"VERSION clof 1\r\n",
        FixedLine::NotNumber => {
            b"CLIENT_ERROR cannot increment or decrement non-numeric value\r\n"
        }
        FixedLine::TooLarge => b"SERVER_ERROR object too large for cache\r\n",
        FixedLine::Fault(fault) => fault_bytes(fault),
    }
}

// What is said of a command with a fault.
fn fault_bytes(fault: LineFault) -> &'static [u8]
    ensures bytes { result.now ≡ fixed_line (Fault fault) }
    ensures short { length result.now ≤ 64 }
{
    match fault {
        LineFault::Unknown => b"ERROR\r\n",
        LineFault::Format => b"CLIENT_ERROR bad command line format\r\n",
        LineFault::Chunk => b"CLIENT_ERROR bad data chunk\r\n",
        LineFault::TooLarge => b"SERVER_ERROR object too large for cache\r\n",
        LineFault::Delta => b"CLIENT_ERROR invalid numeric delta argument\r\n",
    }
}
