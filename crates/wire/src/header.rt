// The header line of a frame.
ghost use Rattle.std.specs.Prelude.{◌≡◌, ◌+◌, ◌≤◌, length, take, if◌then◌else◌, Some, None, decimal};
ghost use Rattle.std.specs.Char.{is_ascii_digit};
ghost use Rattle.std.specs.List.{prefix_len};
ghost use Rattle.std.specs.Str.Parse.{digits_value};
ghost use Rattle.refusals.specs.Outcomes.{outcome};
ghost use Rattle.wire.specs.Headers.{heading, announced, headed, header_rule, HeadersAnnounce};
ghost use Rattle.wire.specs.Words.{over};

use crate::words::put_bytes;
use itoa::Buffer;
use refusals::Refusal;

// The most bytes of a body, and of a header.
pub const BODY_LIMIT: usize = 10_276;

const HEADER_LIMIT: usize = 25;

// Writes `n` in decimal at a place, and answers the place behind it. The digits are the kit's; this puts them there.
fn put_decimal(out: &mut [u8], at: usize, n: usize) -> usize
    requires { at + length (decimal n) ≤ length out.old }
    ensures next { result ≡ at + length (decimal n) }
    ensures bytes { out.new ≡ over out.old at (decimal n) }
{
    put_bytes(out, at, Buffer::new().format(n).as_bytes())
}

// Writes the header of a body of `n` bytes to the front, and answers the place behind it.
pub fn put_header(out: &mut [u8], n: usize) -> usize
    requires body { n ≤ 10276 }
    requires room { 25 ≤ length out.old }
    ensures within { result ≤ 25 }
    ensures next { result ≡ length (heading n) }
    ensures bytes { out.new ≡ over out.old 0 (heading n) }
{
    let a = put_bytes(out, 0, b"Content-Length: ");
    let b = put_decimal(out, a, n);
    put_bytes(out, b, b"\r\n\r\n")
}

// The number that the digits at the front write.
fn leading_number(bytes: &[u8]) -> usize
    requires { length bytes.now ≤ 5 }
    ensures { result ≡ digits_value 10 (take (prefix_len is_ascii_digit bytes.now) bytes.now) }
{
    let mut number = 0;
    for b in bytes {
        if !b.is_ascii_digit() {
            break;
        }
        number = number * 10 + (*b - b'0') as usize;
    }
    number
}

// The number that the digits behind the label write, five at most.
fn announced_size(frame: &[u8]) -> usize
    ensures { result ≡ announced frame.now }
{
    let end = frame.len().min(21);
    leading_number(&frame[end.min(16)..end])
}

// The place behind the header, where the frame begins with the one that announces a body of `n` bytes: there is no other
// way to write it.
fn header_end(frame: &[u8], n: usize) -> Option<usize>
    ensures { result ≡ (if headed frame.now n then Some (length (heading n)) else None) }
{
    if n > BODY_LIMIT {
        return None;
    }
    let mut header = [0; HEADER_LIMIT];
    let end = put_header(&mut header, n);
    frame.starts_with(&header[..end]).then_some(end)
}

// Where the body of a frame begins: 4 where the header is not as laid out, 5 where the bytes behind it are not as many as
// it says.
#[tactic(auto, using(crate::proofs::Announcing::headers_announce))]
pub fn body_start(frame: &[u8]) -> Result<usize, Refusal>
    ensures start { outcome (λ n. n) result tt ≡ header_rule frame.now }
    ensures headers { HeadersAnnounce }
{
    let size = announced_size(frame);
    let start = header_end(frame, size).ok_or(Refusal::Header)?;
    if frame.len() != start + size {
        return Err(Refusal::BodyLength);
    }
    Ok(start)
}
