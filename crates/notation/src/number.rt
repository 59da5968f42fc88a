// Numbers: decimal digits, with no sign. And the marks between fields.
ghost use Rattle.std.specs.Prelude.{◌≡◌, ◌<◌, length, IfSome};
ghost use Rattle.std.specs.Option.{option_map};
ghost use Rattle.notation.specs.Numbers.{number_of, behind, pair_of};

use crate::parsed::Parsed;

// The number at the front of `from`: all the digits there. None where there is no digit, and where the number does
// not fit. One pass: to count the digits first and have the library parse them was timed, and took more than twice as long.
pub fn read_number(from: &[u8]) -> Option<Parsed<'_, u32>>
    ensures number { option_map (λ n. (n.value, n.rest.now)) result ≡ number_of from.now }
    ensures shorter { IfSome result (λ n. length n.rest.now < length from.now) }
{
    let mut value: u64 = 0;
    let mut size = 0;
    for b in from {
        if !b.is_ascii_digit() {
            break;
        }
        value = value * 10 + u64::from(*b - b'0');
        if value > u64::from(u32::MAX) {
            return None;
        }
        size += 1;
    }
    (size > 0).then_some(Parsed {
        value: value as u32,
        rest: &from[size..],
    })
}

// What follows the byte `mark` at the front of `from`.
pub fn read_mark(from: &[u8], mark: u8) -> Option<&[u8]>
    ensures behind { option_map (λ b. b.now) result ≡ behind mark from.now }
    ensures shorter { IfSome result (λ b. length b.now < length from.now) }
{
    match from {
        [first, rest @ ..] if *first == mark => Some(rest),
        _ => None,
    }
}

// The two numbers at the front of `from`, with a colon between them.
pub fn read_pair(from: &[u8]) -> Option<Parsed<'_, (u32, u32)>>
    ensures { option_map (λ p. (p.value.0, p.value.1, p.rest.now)) result ≡ pair_of from.now }
{
    let first = read_number(from)?;
    let second = read_number(read_mark(first.rest, b':')?)?;
    Some(Parsed {
        value: (first.value, second.value),
        rest: second.rest,
    })
}
