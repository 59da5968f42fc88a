// Worked examples of the rules, proved of the definitions that the contracts cite.
#![tactic(auto)]

ghost use Rattle.std.specs.Prelude.{◌≡◌};
ghost use Rattle.examples.specs.Examples.{Examples};

// How many examples are proved.
pub fn worked_examples() -> u32
    ensures count { result ≡ 8 }
    ensures proved { Examples }
{
    8
}
