//! Items that expire by the moment. Worked out by hand from the protocol's expiry times and this project's profile.
use crate::tests::{Answered, expect_answers};
use std::test::Fail;

const LATER: &[Answered] = &[
    (
        b"set k 0 0 1\r\na\r\nmoment 4294967295\r\ngets k\r\n",
        b"STORED\r\nOK\r\nVALUE k 0 1 1\r\na\r\nEND\r\n",
    ),
    (
        b"set k 0 1 1\r\na\r\nmoment 0\r\nget k\r\nmoment 1\r\nget k\r\n",
        b"STORED\r\nOK\r\nVALUE k 0 1\r\na\r\nEND\r\nOK\r\nEND\r\n",
    ),
    (
        b"moment 10\r\nset k 0 2592000 1\r\na\r\nmoment 2592009\r\nget k\r\nmoment 2592010\r\nget k\r\n",
        b"OK\r\nSTORED\r\nOK\r\nVALUE k 0 1\r\na\r\nEND\r\nOK\r\nEND\r\n",
    ),
    (
        b"moment 10\r\nset k 0 2592001 1\r\na\r\nmoment 2592000\r\nget k\r\nmoment 2592001\r\nget k\r\n",
        b"OK\r\nSTORED\r\nOK\r\nVALUE k 0 1\r\na\r\nEND\r\nOK\r\nEND\r\n",
    ),
    (
        b"moment 2592001\r\nset k 0 2592001 1\r\na\r\nget k\r\nset k 0 2592002 1\r\nb\r\ngets k\r\n\
      moment 2592002\r\nget k\r\n",
        b"OK\r\nSTORED\r\nEND\r\nSTORED\r\nVALUE k 0 1 2\r\nb\r\nEND\r\nOK\r\nEND\r\n",
    ),
];

const AT_ONCE_OR_LATE: &[Answered] = &[
    (
        b"moment 7\r\nset k 0 -1 1\r\na\r\nget k\r\nset k 0 0 1\r\nb\r\ngets k\r\n",
        b"OK\r\nSTORED\r\nEND\r\nSTORED\r\nVALUE k 0 1 2\r\nb\r\nEND\r\n",
    ),
    (
        b"set k 0 -2147483648 1\r\na\r\nget k\r\nset k 0 0 1\r\nb\r\ngets k\r\n",
        b"STORED\r\nEND\r\nSTORED\r\nVALUE k 0 1 2\r\nb\r\nEND\r\n",
    ),
    (
        b"set k 0 2147483647 1\r\na\r\nmoment 2147483646\r\nget k\r\nmoment 2147483647\r\nget k\r\n",
        b"STORED\r\nOK\r\nVALUE k 0 1\r\na\r\nEND\r\nOK\r\nEND\r\n",
    ),
    (
        b"moment 3000000\r\nset c 0 2592001 1\r\ny\r\ngets c\r\nset c 0 2592000 1\r\ny\r\ngets c\r\n",
        b"OK\r\nSTORED\r\nEND\r\nSTORED\r\nVALUE c 0 1 2\r\ny\r\nEND\r\n",
    ),
    (
        b"moment 4294967295\r\nset k 0 1 1\r\na\r\nset j 0 2592000 1\r\nb\r\nset i 0 2147483647 1\r\nc\r\n\
      moment 4294967295\r\ngets i j k\r\n",
        b"OK\r\nSTORED\r\nSTORED\r\nSTORED\r\nOK\r\nVALUE j 0 1 2\r\nb\r\nVALUE k 0 1 1\r\na\r\nEND\r\n",
    ),
];

const NEVER_BACK: &[Answered] = &[
    (
        b"moment 100\r\nset a 0 50 1\r\nx\r\nmoment 149\r\nget a\r\nmoment 150\r\nget a\r\nmoment 10\r\n",
        b"OK\r\nSTORED\r\nOK\r\nVALUE a 0 1\r\nx\r\nEND\r\nOK\r\nEND\r\nCLIENT_ERROR moment goes back\r\n",
    ),
    (
        b"moment 0\r\nmoment 5\r\nset k 0 1 1\r\na\r\nmoment 4\r\nmoment 0\r\nmoment 5\r\nget k\r\n\
      moment 6\r\nget k\r\n",
        b"OK\r\nOK\r\nSTORED\r\nCLIENT_ERROR moment goes back\r\nCLIENT_ERROR moment goes back\r\nOK\r\n\
      VALUE k 0 1\r\na\r\nEND\r\nOK\r\nEND\r\n",
    ),
    (
        b"moment 4294967295\r\nmoment 4294967294\r\nmoment 4294967295\r\n",
        b"OK\r\nCLIENT_ERROR moment goes back\r\nOK\r\n",
    ),
    (
        b"moment 7\r\nset k 0 5 1\r\na\r\nflush_all\r\nget k\r\nmoment 6\r\nset k 0 5 1\r\nb\r\ngets k\r\n\
      moment 11\r\ngets k\r\nmoment 12\r\ngets k\r\n",
        b"OK\r\nSTORED\r\nOK\r\nEND\r\nCLIENT_ERROR moment goes back\r\nSTORED\r\nVALUE k 0 1 2\r\nb\r\n\
      END\r\nOK\r\nVALUE k 0 1 2\r\nb\r\nEND\r\nOK\r\nEND\r\n",
    ),
];

const LINES: &[Answered] = &[
    (
        b"set k 0 5 1\r\na\r\nmoment\r\nmoment 5 6\r\nmoment x\r\nmoment noreply\r\nmoment 4294967296\r\n\
      moment -5\r\nget k\r\n",
        b"STORED\r\nERROR\r\nERROR\r\nCLIENT_ERROR bad command line format\r\n\
      CLIENT_ERROR bad command line format\r\nCLIENT_ERROR bad command line format\r\n\
      CLIENT_ERROR bad command line format\r\nVALUE k 0 1\r\na\r\nEND\r\n",
    ),
    (
        b"moment 5 noreply\r\nmoment 4 noreply\r\nmoment 4\r\nset k 0 1 1 noreply\r\na\r\n\
      touch k 5 noreply\r\nmoment 9 noreply\r\nget k\r\nmoment 10 noreply\r\nget k\r\n",
        b"CLIENT_ERROR moment goes back\r\nVALUE k 0 1\r\na\r\nEND\r\nEND\r\n",
    ),
    (
        b"set a 0 3 1\r\nx\r\nset b 0 1 1\r\ny\r\nset c 0 2 1\r\nz\r\nset d 0 2 1\r\nv\r\nset e 0 0 1\r\nw\r\n\
      moment 2\r\ngets a b c d e\r\nmoment 3\r\ngets a b c d e\r\n",
        b"STORED\r\nSTORED\r\nSTORED\r\nSTORED\r\nSTORED\r\nOK\r\nVALUE a 0 1 1\r\nx\r\nVALUE e 0 1 5\r\nw\r\n\
      END\r\nOK\r\nVALUE e 0 1 5\r\nw\r\nEND\r\n",
    ),
];

const TOUCHED: &[Answered] = &[
    (
        b"set k 0 5 1\r\na\r\ntouch k 10\r\nmoment 5\r\ngets k\r\nmoment 10\r\ngets k\r\n",
        b"STORED\r\nTOUCHED\r\nOK\r\nVALUE k 0 1 1\r\na\r\nEND\r\nOK\r\nEND\r\n",
    ),
    (
        b"set k 0 10 1\r\na\r\ntouch k 5\r\nmoment 4\r\ntouch k 1\r\nmoment 5\r\ngets k\r\n",
        b"STORED\r\nTOUCHED\r\nOK\r\nTOUCHED\r\nOK\r\nEND\r\n",
    ),
    (
        b"set k 3 5 1\r\na\r\ntouch k 0\r\nmoment 4294967295\r\ngets k\r\ntouch k 1\r\ngets k\r\n",
        b"STORED\r\nTOUCHED\r\nOK\r\nVALUE k 3 1 1\r\na\r\nEND\r\nTOUCHED\r\nVALUE k 3 1 1\r\na\r\nEND\r\n",
    ),
    (
        b"set k 0 0 1\r\na\r\ntouch k 5\r\nmoment 4\r\ngets k\r\nmoment 5\r\ngets k\r\ntouch k 5\r\n",
        b"STORED\r\nTOUCHED\r\nOK\r\nVALUE k 0 1 1\r\na\r\nEND\r\nOK\r\nEND\r\nNOT_FOUND\r\n",
    ),
    (
        b"set k 0 0 1\r\na\r\ntouch k -1\r\ngets k\r\nset k 0 0 1\r\nb\r\ngets k\r\ntouch k -2147483648\r\n\
      gets k\r\n",
        b"STORED\r\nTOUCHED\r\nEND\r\nSTORED\r\nVALUE k 0 1 2\r\nb\r\nEND\r\nTOUCHED\r\nEND\r\n",
    ),
    (
        b"moment 1\r\nset k 0 0 1\r\na\r\ntouch k 2592000\r\nmoment 2592000\r\ngets k\r\nmoment 2592001\r\n\
      gets k\r\n",
        b"OK\r\nSTORED\r\nTOUCHED\r\nOK\r\nVALUE k 0 1 1\r\na\r\nEND\r\nOK\r\nEND\r\n",
    ),
    (
        b"moment 1\r\nset k 0 0 1\r\na\r\ntouch k 2592001\r\nmoment 2592000\r\ngets k\r\ntouch k 2592001\r\n\
      moment 2592001\r\ngets k\r\n",
        b"OK\r\nSTORED\r\nTOUCHED\r\nOK\r\nVALUE k 0 1 1\r\na\r\nEND\r\nTOUCHED\r\nOK\r\nEND\r\n",
    ),
];

const LAST_EXPIRY: &[Answered] = &[
    (
        b"moment 3000000\r\nset k 0 0 1\r\na\r\ntouch k 2592001\r\nget k\r\nset k 0 5 1\r\nb\r\n\
      touch k 2147483647\r\nmoment 2147483646\r\nget k\r\nmoment 2147483647\r\nget k\r\n",
        b"OK\r\nSTORED\r\nTOUCHED\r\nEND\r\nSTORED\r\nTOUCHED\r\nOK\r\nVALUE k 0 1\r\nb\r\nEND\r\nOK\r\n\
      END\r\n",
    ),
    (
        b"set k 0 5 1\r\na\r\nset k 0 10 1\r\nb\r\nmoment 5\r\nget k\r\nset k 0 0 1\r\nc\r\nmoment 10\r\n\
      get k\r\nset k 0 1 1\r\nd\r\nmoment 11\r\nget k\r\n",
        b"STORED\r\nSTORED\r\nOK\r\nVALUE k 0 1\r\nb\r\nEND\r\nSTORED\r\nOK\r\nVALUE k 0 1\r\nc\r\nEND\r\n\
      STORED\r\nOK\r\nEND\r\n",
    ),
    (
        b"set k 0 5 1\r\na\r\nset k 0 5 2\r\nbc\r\nmoment 4\r\ngets k\r\nmoment 5\r\ngets k\r\n",
        b"STORED\r\nSTORED\r\nOK\r\nVALUE k 0 2 2\r\nbc\r\nEND\r\nOK\r\nEND\r\n",
    ),
    (
        b"set k 0 5 1\r\na\r\ndelete k\r\nset k 0 0 1\r\nb\r\nmoment 5\r\ngets k\r\n",
        b"STORED\r\nDELETED\r\nSTORED\r\nOK\r\nVALUE k 0 1 2\r\nb\r\nEND\r\n",
    ),
    (
        b"set k 0 5 1\r\na\r\nset k 0 -1 1\r\nb\r\nset k 0 0 1\r\nc\r\nmoment 5\r\ngets k\r\n",
        b"STORED\r\nSTORED\r\nSTORED\r\nOK\r\nVALUE k 0 1 3\r\nc\r\nEND\r\n",
    ),
];

const STORAGE: &[Answered] = &[
    (
        b"set k 0 5 1\r\na\r\nmoment 5\r\ncas k 0 0 1 1\r\nb\r\nadd k 0 0 1\r\nc\r\ngets k\r\n",
        b"STORED\r\nOK\r\nNOT_FOUND\r\nSTORED\r\nVALUE k 0 1 2\r\nc\r\nEND\r\n",
    ),
    (
        b"set k 0 5 1\r\na\r\ncas k 0 9 1 2\r\nb\r\nmoment 5\r\ngets k\r\n",
        b"STORED\r\nEXISTS\r\nOK\r\nEND\r\n",
    ),
    (
        b"set k 0 0 1\r\na\r\ncas k 0 9 1 1\r\nb\r\nmoment 8\r\ngets k\r\nmoment 9\r\ngets k\r\n",
        b"STORED\r\nSTORED\r\nOK\r\nVALUE k 0 1 2\r\nb\r\nEND\r\nOK\r\nEND\r\n",
    ),
    (
        b"set k 0 0 1\r\na\r\ncas k 0 -1 1 1\r\nb\r\ngets k\r\nset k 0 0 1\r\nc\r\ngets k\r\n",
        b"STORED\r\nSTORED\r\nEND\r\nSTORED\r\nVALUE k 0 1 3\r\nc\r\nEND\r\n",
    ),
    (
        b"add k 0 2 1\r\na\r\nadd k 0 0 1\r\nb\r\nmoment 1\r\ngets k\r\nmoment 2\r\nadd k 0 0 1\r\nc\r\n\
      gets k\r\n",
        b"STORED\r\nNOT_STORED\r\nOK\r\nVALUE k 0 1 1\r\na\r\nEND\r\nOK\r\nSTORED\r\nVALUE k 0 1 2\r\nc\r\n\
      END\r\n",
    ),
    (
        b"set k 0 0 1\r\na\r\nreplace k 0 2 1\r\nb\r\nmoment 1\r\ngets k\r\nmoment 2\r\nreplace k 0 0 1\r\n\
      c\r\ngets k\r\n",
        b"STORED\r\nSTORED\r\nOK\r\nVALUE k 0 1 2\r\nb\r\nEND\r\nOK\r\nNOT_STORED\r\nEND\r\n",
    ),
];

const OTHERS: &[Answered] = &[
    (
        b"set k 7 5 1\r\na\r\nappend k 0 0 1\r\nb\r\nprepend k 0 9 1\r\nc\r\nmoment 4\r\ngets k\r\n\
      append k 0 -1 1\r\nd\r\ngets k\r\nmoment 5\r\nappend k 0 0 1\r\ne\r\ngets k\r\n",
        b"STORED\r\nSTORED\r\nSTORED\r\nOK\r\nVALUE k 7 3 3\r\ncab\r\nEND\r\nSTORED\r\nVALUE k 7 4 4\r\n\
      cabd\r\nEND\r\nOK\r\nNOT_STORED\r\nEND\r\n",
    ),
    (
        b"set n 7 5 1\r\n1\r\nincr n 4\r\ndecr n 2\r\nmoment 4\r\ngets n\r\nmoment 5\r\nincr n 1\r\ngets n\r\n",
        b"STORED\r\n5\r\n3\r\nOK\r\nVALUE n 7 1 3\r\n3\r\nEND\r\nOK\r\nNOT_FOUND\r\nEND\r\n",
    ),
    (
        b"set k 0 0 1\r\n1\r\nappend k 0 1 1\r\n2\r\nincr k 1\r\nmoment 4294967295\r\ngets k\r\n",
        b"STORED\r\nSTORED\r\n13\r\nOK\r\nVALUE k 0 2 3\r\n13\r\nEND\r\n",
    ),
    (
        b"set k 0 5 1\r\na\r\nset j 0 6 1\r\nb\r\nmoment 5\r\ndelete k\r\ndelete j\r\nverbosity 1\r\n\
      version\r\n",
        b"STORED\r\nSTORED\r\nOK\r\nNOT_FOUND\r\nDELETED\r\nOK\r\nVERSION clof 1\r\n",
    ),
];

#[test]
fn expires_some_seconds_later_or_at_a_moment(rt: HostRuntime) -> Result<(), Fail> {
    expect_answers(&rt, rt.alloc(), LATER)
}

#[test]
fn expires_at_once_or_late(rt: HostRuntime) -> Result<(), Fail> {
    expect_answers(&rt, rt.alloc(), AT_ONCE_OR_LATE)
}

#[test]
fn the_moment_never_goes_back(rt: HostRuntime) -> Result<(), Fail> {
    expect_answers(&rt, rt.alloc(), NEVER_BACK)
}

#[test]
fn reads_lines_of_moment(rt: HostRuntime) -> Result<(), Fail> {
    expect_answers(&rt, rt.alloc(), LINES)
}

#[test]
fn touched_items_expire_by_the_touch(rt: HostRuntime) -> Result<(), Fail> {
    expect_answers(&rt, rt.alloc(), TOUCHED)
}

#[test]
fn an_item_has_its_last_expiry_alone(rt: HostRuntime) -> Result<(), Fail> {
    expect_answers(&rt, rt.alloc(), LAST_EXPIRY)
}

#[test]
fn storage_commands_beside_an_expiry(rt: HostRuntime) -> Result<(), Fail> {
    expect_answers(&rt, rt.alloc(), STORAGE)
}

#[test]
fn other_commands_beside_an_expiry(rt: HostRuntime) -> Result<(), Fail> {
    expect_answers(&rt, rt.alloc(), OTHERS)
}
