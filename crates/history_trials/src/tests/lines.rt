//! Lines and blocks with what memcached's protocol.txt and this project's profile make of them. `bench/memcached_lines.py` asks
//! memcached itself about each, and docs/MEMCACHED.md names those that it answers otherwise.
use crate::tests::protocol::First::{Bad, Good};
use crate::tests::protocol::{First, agree};
use mc_text::LineFault::{Chunk, Delta, Format, Unknown};

// Storage lines: `noreply` in its place and another word there, each number of words, each wrong word.
const STORAGE: [(&[u8], First); 65] = [
    (b"set k 0 0 1\r\nx\r\n", Good),
    (b"set k 4294967295 -2147483648 1 noreply\r\nx\r\n", Good),
    (b"set\r\n", Bad(Unknown)),
    (b"set k\r\n", Bad(Unknown)),
    (b"set k 0\r\n", Bad(Unknown)),
    (b"set k 0 0\r\n", Bad(Unknown)),
    (b"set k 0 0 1 quiet\r\n", Bad(Unknown)),
    (b"set k 0 0 1 noreply noreply\r\n", Bad(Unknown)),
    (b"set k\x7f 0 0 1\r\n", Bad(Format)),
    (b"set k x 0 1\r\n", Bad(Format)),
    (b"set k 0 x 1\r\n", Bad(Format)),
    (b"set k 0 0 x\r\n", Bad(Format)),
    (b"set k x 0 1 quiet\r\n", Bad(Unknown)),
    (b"add k 0 0 1\r\nx\r\n", Good),
    (b"add k 4294967295 -2147483648 1 noreply\r\nx\r\n", Good),
    (b"add\r\n", Bad(Unknown)),
    (b"add k\r\n", Bad(Unknown)),
    (b"add k 0\r\n", Bad(Unknown)),
    (b"add k 0 0\r\n", Bad(Unknown)),
    (b"add k 0 0 1 quiet\r\n", Bad(Unknown)),
    (b"add k 0 0 1 noreply noreply\r\n", Bad(Unknown)),
    (b"add k\x7f 0 0 1\r\n", Bad(Format)),
    (b"add k x 0 1\r\n", Bad(Format)),
    (b"add k 0 x 1\r\n", Bad(Format)),
    (b"add k 0 0 x\r\n", Bad(Format)),
    (b"add k x 0 1 quiet\r\n", Bad(Unknown)),
    (b"replace k 0 0 1\r\nx\r\n", Good),
    (b"replace k 4294967295 -2147483648 1 noreply\r\nx\r\n", Good),
    (b"replace\r\n", Bad(Unknown)),
    (b"replace k\r\n", Bad(Unknown)),
    (b"replace k 0\r\n", Bad(Unknown)),
    (b"replace k 0 0\r\n", Bad(Unknown)),
    (b"replace k 0 0 1 quiet\r\n", Bad(Unknown)),
    (b"replace k 0 0 1 noreply noreply\r\n", Bad(Unknown)),
    (b"replace k\x7f 0 0 1\r\n", Bad(Format)),
    (b"replace k x 0 1\r\n", Bad(Format)),
    (b"replace k 0 x 1\r\n", Bad(Format)),
    (b"replace k 0 0 x\r\n", Bad(Format)),
    (b"replace k x 0 1 quiet\r\n", Bad(Unknown)),
    (b"append k 0 0 1\r\nx\r\n", Good),
    (b"append k 4294967295 -2147483648 1 noreply\r\nx\r\n", Good),
    (b"append\r\n", Bad(Unknown)),
    (b"append k\r\n", Bad(Unknown)),
    (b"append k 0\r\n", Bad(Unknown)),
    (b"append k 0 0\r\n", Bad(Unknown)),
    (b"append k 0 0 1 quiet\r\n", Bad(Unknown)),
    (b"append k 0 0 1 noreply noreply\r\n", Bad(Unknown)),
    (b"append k\x7f 0 0 1\r\n", Bad(Format)),
    (b"append k x 0 1\r\n", Bad(Format)),
    (b"append k 0 x 1\r\n", Bad(Format)),
    (b"append k 0 0 x\r\n", Bad(Format)),
    (b"append k x 0 1 quiet\r\n", Bad(Unknown)),
    (b"prepend k 0 0 1\r\nx\r\n", Good),
    (b"prepend k 4294967295 -2147483648 1 noreply\r\nx\r\n", Good),
    (b"prepend\r\n", Bad(Unknown)),
    (b"prepend k\r\n", Bad(Unknown)),
    (b"prepend k 0\r\n", Bad(Unknown)),
    (b"prepend k 0 0\r\n", Bad(Unknown)),
    (b"prepend k 0 0 1 quiet\r\n", Bad(Unknown)),
    (b"prepend k 0 0 1 noreply noreply\r\n", Bad(Unknown)),
    (b"prepend k\x7f 0 0 1\r\n", Bad(Format)),
    (b"prepend k x 0 1\r\n", Bad(Format)),
    (b"prepend k 0 x 1\r\n", Bad(Format)),
    (b"prepend k 0 0 x\r\n", Bad(Format)),
    (b"prepend k x 0 1 quiet\r\n", Bad(Unknown)),
];

// Lines of `cas`.
const CAS: [(&[u8], First); 16] = [
    (b"cas k 0 0 1 18446744073709551615\r\nx\r\n", Good),
    (b"cas k 0 0 1 007 noreply\r\nx\r\n", Good),
    (b"cas\r\n", Bad(Unknown)),
    (b"cas k 0 0 1\r\n", Bad(Unknown)),
    (b"cas k 0 0 1 7 quiet\r\n", Bad(Unknown)),
    (b"cas k 0 0 1 7 noreply noreply\r\n", Bad(Unknown)),
    (b"cas k\x01 0 0 1 7\r\n", Bad(Format)),
    (b"cas k x 0 1 7\r\n", Bad(Format)),
    (b"cas k 0 x 1 7\r\n", Bad(Format)),
    (b"cas k 0 0 x 7\r\n", Bad(Format)),
    (b"cas k 0 0 1 x\r\n", Bad(Format)),
    (b"cas k 0 0 1 18446744073709551616\r\n", Bad(Format)),
    (b"cas k 0 0 1 noreply\r\n", Bad(Format)),
    (b"cas k 0 0 1 -1\r\n", Bad(Format)),
    (b"cas k 0 0 1 +1\r\n", Bad(Format)),
    (b"cas k 0 0 1 -0\r\n", Bad(Format)),
];

// Numbers at their limits, with leading zeros and signs.
const NUMBERS: [(&[u8], First); 31] = [
    (b"set k 0004294967295 0 1\r\nx\r\n", Good),
    (b"set k 4294967296 0 1\r\n", Bad(Format)),
    (b"set k -1 0 1\r\n", Bad(Format)),
    (b"set k +1 0 1\r\n", Bad(Format)),
    (b"set k -0 0 1\r\n", Bad(Format)),
    (b"set k 0 2147483647 1\r\nx\r\n", Good),
    (b"set k 0 2147483648 1\r\n", Bad(Format)),
    (b"set k 0 -2147483649 1\r\n", Bad(Format)),
    (b"set k 0 -0 1\r\nx\r\n", Good),
    (b"set k 0 - 1\r\n", Bad(Format)),
    (b"set k 0 --1 1\r\n", Bad(Format)),
    (b"set k 0 +1 1\r\n", Bad(Format)),
    (b"set k 0 -002147483648 1\r\nx\r\n", Good),
    (b"set k 0 0 0000000000001\r\nx\r\n", Good),
    (b"set k 0 0 4294967296\r\n", Bad(Format)),
    (b"set k 0 0 18446744073709551617\r\n", Bad(Format)),
    (b"set k 0 0 -1\r\n", Bad(Format)),
    (b"set k 0 0 -0\r\n", Bad(Format)),
    (b"set k 0 0 +1\r\n", Bad(Format)),
    (b"set k 0 0 4294967297\r\n", Bad(Format)),
    (b"set k 0 0 1x\r\n", Bad(Format)),
    (b"incr k 18446744073709551615\r\n", Good),
    (b"incr k 00018446744073709551615\r\n", Good),
    (b"incr k 18446744073709551616\r\n", Bad(Delta)),
    (b"decr k 99999999999999999999999\r\n", Bad(Delta)),
    (b"touch k 2147483647\r\n", Good),
    (b"touch k 2147483648\r\n", Bad(Format)),
    (b"touch k -2147483648\r\n", Good),
    (b"touch k -2147483649\r\n", Bad(Format)),
    (b"verbosity 18446744073709551616\r\n", Good),
    (b"verbosity 0099\r\n", Good),
];

// Retrieval lines.
const RETRIEVAL: [(&[u8], First); 11] = [
    (b"get a\r\n", Good),
    (b"gets a\r\n", Good),
    (b"get a bb a\r\n", Good),
    (b"gets a noreply\r\n", Good),
    (b"get\r\n", Bad(Unknown)),
    (b"gets \r\n", Bad(Unknown)),
    (b"get a\x01\r\n", Bad(Format)),
    (b"get a b\x1f\r\n", Bad(Format)),
    (b"gets a\x7f b\r\n", Bad(Format)),
    (b"gets a\x80\xff\r\n", Good),
    (b"get a\x09b\r\n", Bad(Format)),
];

// Lines of one key.
const ONE_KEY: [(&[u8], First); 45] = [
    (b"delete k\r\n", Good),
    (b"delete k noreply\r\n", Good),
    (b"delete noreply\r\n", Good),
    (b"delete\r\n", Bad(Unknown)),
    (b"delete k 0\r\n", Bad(Unknown)),
    (b"delete k 0 noreply\r\n", Bad(Unknown)),
    (b"delete k noreply noreply\r\n", Bad(Unknown)),
    (b"delete k\x7f\r\n", Bad(Format)),
    (b"delete k\x7f quiet\r\n", Bad(Unknown)),
    (b"incr k 1\r\n", Good),
    (b"incr k 1 noreply\r\n", Good),
    (b"incr\r\n", Bad(Unknown)),
    (b"incr k\r\n", Bad(Unknown)),
    (b"incr k 1 quiet\r\n", Bad(Unknown)),
    (b"incr k 1 noreply noreply\r\n", Bad(Unknown)),
    (b"incr k\x7f 1\r\n", Bad(Format)),
    (b"incr k\x7f x\r\n", Bad(Format)),
    (b"incr k x\r\n", Bad(Delta)),
    (b"incr k noreply\r\n", Bad(Delta)),
    (b"incr k -1\r\n", Bad(Delta)),
    (b"incr k +1\r\n", Bad(Delta)),
    (b"incr k -0\r\n", Bad(Delta)),
    (b"incr k x quiet\r\n", Bad(Unknown)),
    (b"decr k 1\r\n", Good),
    (b"decr k 1 noreply\r\n", Good),
    (b"decr\r\n", Bad(Unknown)),
    (b"decr k\r\n", Bad(Unknown)),
    (b"decr k 1 quiet\r\n", Bad(Unknown)),
    (b"decr k 1 noreply noreply\r\n", Bad(Unknown)),
    (b"decr k\x7f 1\r\n", Bad(Format)),
    (b"decr k\x7f x\r\n", Bad(Format)),
    (b"decr k x\r\n", Bad(Delta)),
    (b"decr k noreply\r\n", Bad(Delta)),
    (b"decr k -1\r\n", Bad(Delta)),
    (b"decr k +1\r\n", Bad(Delta)),
    (b"decr k x quiet\r\n", Bad(Unknown)),
    (b"touch k 0\r\n", Good),
    (b"touch k -1 noreply\r\n", Good),
    (b"touch\r\n", Bad(Unknown)),
    (b"touch k\r\n", Bad(Unknown)),
    (b"touch k 0 quiet\r\n", Bad(Unknown)),
    (b"touch k 0 noreply noreply\r\n", Bad(Unknown)),
    (b"touch k\x7f 0\r\n", Bad(Format)),
    (b"touch k x\r\n", Bad(Format)),
    (b"touch k noreply\r\n", Bad(Format)),
];

// Lines without a key, and lines that no row of the table names.
const OTHER: [(&[u8], First); 44] = [
    (b"flush_all\r\n", Good),
    (b"flush_all 0\r\n", Good),
    (b"flush_all noreply\r\n", Good),
    (b"flush_all 0 noreply\r\n", Good),
    (b"flush_all 00\r\n", Bad(Format)),
    (b"flush_all x\r\n", Bad(Format)),
    (b"flush_all 1\r\n", Bad(Format)),
    (b"flush_all x noreply\r\n", Bad(Format)),
    (b"flush_all noreply noreply\r\n", Bad(Format)),
    (b"flush_all 0 x\r\n", Bad(Unknown)),
    (b"flush_all x y\r\n", Bad(Unknown)),
    (b"flush_all noreply 0\r\n", Bad(Unknown)),
    (b"flush_all 0 noreply noreply\r\n", Bad(Unknown)),
    (b"version\r\n", Good),
    (b"version x\r\n", Bad(Unknown)),
    (b"version noreply\r\n", Bad(Unknown)),
    (b"verbosity 1\r\n", Good),
    (b"verbosity 1 noreply\r\n", Good),
    (b"verbosity\r\n", Bad(Unknown)),
    (b"verbosity 1 x\r\n", Bad(Unknown)),
    (b"verbosity 1 noreply x\r\n", Bad(Unknown)),
    (b"verbosity x\r\n", Bad(Format)),
    (b"verbosity noreply\r\n", Bad(Format)),
    (b"verbosity -1\r\n", Bad(Format)),
    (b"quit\r\n", Good),
    (b"quit x\r\n", Bad(Unknown)),
    (b"quit noreply\r\n", Bad(Unknown)),
    (b"\r\n", Bad(Unknown)),
    (b"\n", Bad(Unknown)),
    (b"   \r\n", Bad(Unknown)),
    (b"SET k 0 0 1\r\n", Bad(Unknown)),
    (b"sets k 0 0 1\r\n", Bad(Unknown)),
    (b"se k 0 0 1\r\n", Bad(Unknown)),
    (b"frob\r\n", Bad(Unknown)),
    (b"gat 0 k\r\n", Bad(Unknown)),
    (b"gats 0 k\r\n", Bad(Unknown)),
    (b"stats\r\n", Bad(Unknown)),
    (b"stats items\r\n", Bad(Unknown)),
    (b"mg k\r\n", Bad(Unknown)),
    (b"mn\r\n", Bad(Unknown)),
    (b"lru mode flat\r\n", Bad(Unknown)),
    (b"cache_memlimit 100\r\n", Bad(Unknown)),
    (b"shutdown\r\n", Bad(Unknown)),
    (b"set\x09 k 0 0 1\r\n", Bad(Unknown)),
];

// Lines of `moment`, which memcached doesn't know.
const MOMENT: [(&[u8], First); 24] = [
    (b"moment 0\r\n", Good),
    (b"moment 5\n", Good),
    (b"moment 5 noreply\r\n", Good),
    (b"  moment  5  noreply \r\n", Good),
    (b"moment 0005\r\n", Good),
    (b"moment 4294967295\r\n", Good),
    (b"moment 00004294967295 noreply\r\n", Good),
    (b"moment 4294967296\r\n", Bad(Format)),
    (b"moment 18446744073709551621\r\n", Bad(Format)),
    (b"moment -1\r\n", Bad(Format)),
    (b"moment +1\r\n", Bad(Format)),
    (b"moment x\r\n", Bad(Format)),
    (b"moment 1x noreply\r\n", Bad(Format)),
    (b"moment noreply\r\n", Bad(Format)),
    (b"moment noreply noreply\r\n", Bad(Format)),
    (b"moment\r\n", Bad(Unknown)),
    (b"moment 5 quiet\r\n", Bad(Unknown)),
    (b"moment x quiet\r\n", Bad(Unknown)),
    (b"moment 5 6\r\n", Bad(Unknown)),
    (b"moment 5 noreply noreply\r\n", Bad(Unknown)),
    (b"MOMENT 5\r\n", Bad(Unknown)),
    (b"moments 5\r\n", Bad(Unknown)),
    (b"momen 5\r\n", Bad(Unknown)),
    (b"moment\x095\r\n", Bad(Unknown)),
];

// Line ends, gaps between words, blocks and what follows them.
const BLOCKS: [(&[u8], First); 12] = [
    (b"get a\n", Good),
    (b"get a\r\r\n", Bad(Format)),
    (b" get  a  b \r\n", Good),
    (b"set k 0 0 1\nx\r\n", Good),
    (b"set k 0 0 0\r\n\r\n", Good),
    (b"set k 0 0 4\r\n\r\n\r\n\r\n", Good),
    (b"set k 0 0 5\r\n\x00\xff\\\"\n\r\n", Good),
    (b"set k 0 0 1\r\nxy\r\n", Bad(Chunk)),
    (b"set k 0 0 1\r\nx\rx\n", Bad(Chunk)),
    (b"set k 0 0 1\r\nxyz and more\r\n", Bad(Chunk)),
    (b"cas k 0 0 1 7 noreply\r\nxy\r\n", Bad(Chunk)),
    (b"append k 0 0 0\r\nx\n", Bad(Chunk)),
];

#[test]
fn storage_lines(rt: HostRuntime) {
    agree(&rt, &STORAGE);
}

#[test]
fn lines_of_cas(rt: HostRuntime) {
    agree(&rt, &CAS);
}

#[test]
fn numbers_at_their_limits(rt: HostRuntime) {
    agree(&rt, &NUMBERS);
}

#[test]
fn retrieval_lines(rt: HostRuntime) {
    agree(&rt, &RETRIEVAL);
}

#[test]
fn lines_of_one_key(rt: HostRuntime) {
    agree(&rt, &ONE_KEY);
}

#[test]
fn other_lines(rt: HostRuntime) {
    agree(&rt, &OTHER);
}

#[test]
fn lines_of_moment(rt: HostRuntime) {
    agree(&rt, &MOMENT);
}

#[test]
fn line_ends_and_blocks(rt: HostRuntime) {
    agree(&rt, &BLOCKS);
}
