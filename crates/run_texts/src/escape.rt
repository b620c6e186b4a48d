//! How bytes are printed between quotes.
ghost use Rattle.std.specs.Prelude.{◌≡◌, ◌++◌, ◌&&◌, not, ◌==◌, nat_lt, ◌<◌, ◌≤◌, true, codes, drop, length, take};
ghost use Rattle.std.specs.Prelude.{IfOk, IfSome, MatchOption, OnOk};
ghost use Rattle.run_texts.specs.Text.{escaped, escaped_byte};

use byte_text::hex_digit;
use std::alloc::AllocError;

/// Appends a text as it is printed between quotes, and what stands behind it, `end`. Most texts end with `\r\n`; `line_end` is that, as it
/// is printed, and `end`. In line, so that what stands behind a text is appended without a call.
#[inline(always)]
pub(crate) fn push_ended(
    out: &mut Vec<u8>,
    text: &[u8],
    end: &[u8],
    line_end: &[u8],
) -> Result<(), AllocError>
    requires { line_end.now ≡ codes "\\r\\n" ++ end.now }
    ensures { OnOk result (out.new.items ≡ out.old.items ++ (escaped text.now ++ end.now)) }
{
    match text.strip_suffix(b"\r\n".as_slice()) {
        Some(line) => {
            push_escaped(out, line)?;
            out.extend_from_slice(line_end)
        }
        None => {
            push_escaped(out, text)?;
            out.extend_from_slice(end)
        }
    }
}

// Appends a text as it is printed between quotes.
#[inline(always)]
fn push_escaped(out: &mut Vec<u8>, text: &[u8]) -> Result<(), AllocError>
    ensures { OnOk result (out.new.items ≡ out.old.items ++ escaped text.now) }
{
    let mut rest = text;
    while let Some((plain, byte, behind)) = split_plain(rest) {
        out.extend_from_slice(plain)?;
        rest = push_first(out, byte, behind)?;
    }
    out.extend_from_slice(rest)
}

// Appends a byte as it is printed between quotes, and a `\n` that stands behind a `\r` with it. The answer is what is still to be appended.
fn push_first<'a>(out: &mut Vec<u8>, byte: u8, behind: &'a [u8]) -> Result<&'a [u8], AllocError>
    ensures shorter { IfOk result (λ rest. length rest.now ≤ length behind.now) }
    ensures appended { IfOk result (λ rest. out.new.items ++ escaped rest.now
        ≡ out.old.items ++ (escaped_byte byte ++ escaped behind.now)) }
{
    match behind {
        [b'\n', rest @ ..] if byte == b'\r' => {
            out.extend_from_slice(b"\\r\\n")?;
            Ok(rest)
        }
        _ => {
            push_escape(out, byte)?;
            Ok(behind)
        }
    }
}

// The bytes in front that stand for themselves, the first other byte, and what stands behind it. In line, so that they come in no struct.
#[inline(always)]
fn split_plain(text: &[u8]) -> Option<(&[u8], u8, &[u8])>
    ensures shorter { IfSome result (λ parts. length parts.2.now < length text.now) }
    ensures parts { MatchOption result
        (escaped text.now ≡ text.now)
        (λ parts. escaped text.now ≡ parts.0.now ++ (escaped_byte parts.1 ++ escaped parts.2.now)) }
{
    for place in plain_front(text)..text.len() {
        let byte = text[place];
        if !is_plain(byte) {
            return Some((&text[..place], byte, &text[place + 1..]));
        }
    }
    None
}

// How many bytes are looked at together: so many at first, as long as all of them stand for themselves, and then fewer.
const WIDE_BLOCK: usize = 32;

const BLOCK: usize = 8;

// How many bytes the blocks in front have all of whose bytes stand for themselves.
fn plain_front(text: &[u8]) -> usize
    ensures within { result ≤ length text.now }
    ensures plain { escaped text.now ≡ take result text.now ++ escaped (drop result text.now) }
{
    let wide = plain_blocks(WIDE_BLOCK, text);
    wide + plain_blocks(BLOCK, &text[wide..])
}

// The same, of blocks of one size. In line, since the size is a constant.
#[inline(always)]
fn plain_blocks(size: usize, text: &[u8]) -> usize
    requires { 0 < size }
    ensures within { result ≤ length text.now }
    ensures plain { escaped text.now ≡ take result text.now ++ escaped (drop result text.now) }
{
    let mut rest = text;
    while let Some((block, behind)) = rest.split_at_checked(size) {
        if !are_plain(block) {
            break;
        }
        rest = behind;
    }
    text.len() - rest.len()
}

// Whether each byte stands for itself. All are looked at, whatever the first ones are.
fn are_plain(block: &[u8]) -> bool
    ensures { result ≡ true → escaped block.now ≡ block.now }
{
    let mut plain = true;
    for byte in block {
        plain &= is_plain(*byte);
    }
    plain
}

// Whether a byte stands for itself between quotes.
fn is_plain(byte: u8) -> bool
    ensures { result ≡ (nat_lt 31 byte && nat_lt byte 127 && not (byte == 34) && not (byte == 92)) }
{
    (byte > 31) & (byte < 127) & (byte != b'"') & (byte != b'\\')
}

// Appends a byte as it is printed between quotes.
fn push_escape(out: &mut Vec<u8>, byte: u8) -> Result<(), AllocError>
    ensures { OnOk result (out.new.items ≡ out.old.items ++ escaped_byte byte) }
{
    match byte {
        b'\r' => out.extend_from_slice(b"\\r"),
        b'\n' => out.extend_from_slice(b"\\n"),
        b'\\' => out.extend_from_slice(b"\\\\"),
        b'"' => out.extend_from_slice(b"\\\""),
        b' '..=b'~' => out.extend_from_slice(&[byte]),
        _ => out.extend_from_slice(&[b'\\', b'x', hex_digit(byte / 16), hex_digit(byte % 16)]),
    }
}
