// Writes bytes as TEXT: printable ASCII as itself, LF, CR, tab, quote and backslash by their letters, any other byte by
// capital hexadecimal digits.
ghost use Rattle.std.specs.Prelude.{◌≡◌, ℕ, ◌<◌, List, ◌++◌, Some, string_bytes, OnOk};
ghost use Rattle.notation.specs.Texts.{hex_digit, hex_spelled, spelled, written, text_of};

use std::alloc::AllocError;

// The capital hexadecimal digit of a number below 16.
fn hex_digit(value: u8) -> char
    requires { value < 16 }
    ensures { result ≡ hex_digit value }
{
    if value < 10 {
        (b'0' + value) as char
    } else {
        (b'A' + (value - 10)) as char
    }
}

fn write_hex(byte: u8, into: &mut String) -> Result<(), AllocError>
    ensures { OnOk result (string_bytes into.new ≡ string_bytes into.old ++ hex_spelled byte) }
{
    // no `{byte:02X}`: timed, it took three times as long for a byte, and twice as long for a run that writes many
    into.push_str("\\x")?;
    into.push(hex_digit(byte / 16))?;
    into.push(hex_digit(byte % 16))
}

fn write_byte(byte: u8, into: &mut String) -> Result<(), AllocError>
    ensures { OnOk result (string_bytes into.new ≡ string_bytes into.old ++ spelled byte) }
{
    match byte {
        b'\n' => into.push_str("\\n"),
        b'\r' => into.push_str("\\r"),
        b'\t' => into.push_str("\\t"),
        b'"' => into.push_str("\\\""),
        b'\\' => into.push_str("\\\\"),
        b' '..=b'~' => into.push(byte as char),
        _ => write_hex(byte, into),
    }
}

// Writes the bytes as TEXT behind what `into` holds. Whatever follows it, the TEXT is read as the same bytes.
#[tactic(auto, using(crate::proofs::Back::back), unfolding(crate::specs::Texts::written))]
pub fn write_text(bytes: &[u8], into: &mut String) -> Result<(), AllocError>
    ensures written { OnOk result (string_bytes into.new ≡ string_bytes into.old ++ written bytes.now) }
    ensures read_back { (rest : List ℕ) → text_of (written bytes.now ++ rest) ≡ Some (bytes.now, rest) }
{
    into.push('"')?;
    for byte in bytes {
        write_byte(*byte, into)?;
    }
    into.push('"')
}
