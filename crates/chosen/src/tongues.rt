// Languages by their names, and coding in a language and an encoding that were named.
ghost use Rattle.std.specs.Prelude.{◌≡◌};
ghost use Rattle.refusals.specs.Outcomes.{outcome};
ghost use Rattle.coding.specs.Coding.{code_rule, leaves};
ghost use Rattle.chosen.specs.Names.{units_of, next_of, Speaks};

use coding::coder::code;
use languages::language::Language;
use notation::{Encoding, Parsed, read_name};
use refusals::Refusal;
use routes::Routes;
use settings::Settings;
use text::encodings::{Utf8Units, Utf16Units, Utf32Units};

#[derive(Clone, Copy)]
pub enum Tongue {
    Routes,
    Settings,
}

// The language whose name and a space stand at the front of `from`: a table of its own, as `read_encoding` has one.
pub fn read_tongue(from: &[u8]) -> Option<Parsed<'_, Tongue>>
    ensures { Speaks from.now result }
{
    read_name(
        from,
        &[
            (b"routes ", Tongue::Routes),
            (b"settings ", Tongue::Settings),
        ],
    )
}

// A match over the units, as each call of `texts` has one. What is coded is three: a language, an encoding, a text.
fn code_in<L: Language>(
    language: &L,
    encoding: Encoding,
    text: &[u8],
    list: &mut [u32],
) -> Result<usize, Refusal>
    ensures { outcome (leaves list.new) result list.new ≡ code_rule (units_of encoding) (L.next language.now) text.now list.old }
{
    match encoding {
        Encoding::Utf8 => code(language, &Utf8Units, text, list),
        Encoding::Utf16 => code(language, &Utf16Units, text, list),
        Encoding::Utf32 => code(language, &Utf32Units, text, list),
    }
}

pub fn code_text(
    tongue: Tongue,
    encoding: Encoding,
    text: &[u8],
    list: &mut [u32],
) -> Result<usize, Refusal>
    ensures { outcome (leaves list.new) result list.new ≡ code_rule (units_of encoding) (next_of tongue) text.now list.old }
{
    // the languages are types, as the encodings are
    match tongue {
        Tongue::Routes => code_in(&Routes, encoding, text, list),
        Tongue::Settings => code_in(&Settings, encoding, text, list),
    }
}
