// Names at the front of bytes.
ghost use Rattle.notation.specs.Names.{IsNamedIn};

use crate::parsed::Parsed;

// What a name of the table stands for, the first that `from` begins with, and what follows the name.
pub fn read_name<'a, T: Copy>(from: &'a [u8], names: &[(&[u8], T)]) -> Option<Parsed<'a, T>>
    ensures { IsNamedIn names.now from.now result }
{
    for (name, value) in names {
        if let Some(rest) = from.strip_prefix(*name) {
            return Some(Parsed {
                value: *value,
                rest,
            });
        }
    }
    None
}
