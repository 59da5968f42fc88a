// What a session does for each command.
ghost use Rattle.std.specs.Prelude.{◌≡◌, ◌≤◌, not, length, Some, IfOk, if◌then◌else◌, string_bytes, OnOk};
ghost use Rattle.std.specs.Option.{option_map, unwrap_or, is_some};
ghost use Rattle.refusals.specs.Outcomes.{outcome};
ghost use Rattle.text.specs.Positions.{unsound};
ghost use Rattle.commission.specs.Rules.{view, holding, started, choosing, at_hand, lending, calling, telling, told, open_rule, replace_rule, ready_rule, type_rule, call_rule};

use crate::command::{Call, Choice};
use crate::session::Session;
use chosen::texts::change;
use chosen::tongues::Tongue;
use notation::{Encoding, write_text};
use refusals::Refusal;
use std::alloc::{AllocError, Global};
use text::changes::{TEXT_LIMIT, check, holds_text};
use text::lines::line_count;
use text::places::Range;

impl Session {
    pub(crate) fn new(heap: Global) -> Result<Session, AllocError>
        ensures { IfOk result (λ s. view s ≡ started 8192) }
    {
        let memory = vec![in heap; 0; TEXT_LIMIT]?;
        Ok(Session {
            encoding: Encoding::Utf16,
            tongue: Tongue::Routes,
            called: false,
            memory,
            size: None,
            lent: TEXT_LIMIT,
        })
    }

    // Starts again with no text and no choice made. What is lent stays.
    pub(crate) fn start_again(&mut self)
        ensures { view self.new ≡ started self.old.lent }
    {
        self.encoding = Encoding::Utf16;
        self.tongue = Tongue::Routes;
        self.called = false;
        self.size = None;
    }

    // Chooses the encoding or the language, and says whether it could be chosen.
    pub(crate) fn choose(&mut self, choice: Choice) -> bool
        ensures answer { result ≡ not self.old.called }
        ensures after { view self.new ≡ (if result then choosing choice (view self.old) else view self.old) }
    {
        if self.called {
            return false;
        }
        match choice {
            Choice::Encoding(encoding) => self.encoding = encoding,
            Choice::Language(tongue) => self.tongue = tongue,
        }
        true
    }

    // Lends so many bytes from now on. The memory never shrinks, so the text stays.
    pub(crate) fn lend(&mut self, bytes: usize) -> Result<(), AllocError>
        ensures { OnOk result (view self.new ≡ lending bytes (view self.old)) }
    {
        let size = self.memory.len().max(bytes);
        self.memory.resize(size, 0)?;
        self.lent = bytes;
        Ok(())
    }

    // The text at hand.
    pub(crate) fn text(&self) -> Option<&[u8]>
        ensures { option_map (λ t. t.now) result ≡ at_hand (view self.now) }
    {
        let size = self.size?;
        Some(&self.memory[..size])
    }

    // Makes the text the one at hand.
    fn put(&mut self, text: &[u8])
        requires { length text.now ≤ 8192 }
        ensures { view self.new ≡ holding text.now (view self.old) }
    {
        // `0..`, here and below: with `..` alone what the session keeps was tried and not proved
        self.memory[0..text.len()].copy_from_slice(text);
        self.size = Some(text.len());
    }

    // `open` and `replace` stay two: one asks that there is no text, the other that there is one.
    fn open(&mut self, text: &[u8]) -> Result<(), Refusal>
        ensures { outcome (λ _. view self.new) result (view self.new) ≡ open_rule (view self.old) text.now }
    {
        check(text)?;
        if self.size.is_some() {
            return Err(Refusal::DocumentState);
        }
        self.put(text);
        Ok(())
    }

    fn replace(&mut self, text: &[u8]) -> Result<(), Refusal>
        ensures { outcome (λ _. view self.new) result (view self.new) ≡ replace_rule (view self.old) text.now }
    {
        check(text)?;
        if self.size.is_none() {
            return Err(Refusal::DocumentState);
        }
        self.put(text);
        Ok(())
    }

    fn type_text(&mut self, range: Range, inserted: &[u8]) -> Result<(), Refusal>
        ensures { outcome (λ _. view self.new) result (view self.new) ≡ type_rule (view self.old) range inserted.now }
    {
        let size = check_ready(&self.memory[..self.lent], self.size, inserted)?;
        let lent = &mut self.memory[0..self.lent];
        self.size = Some(change(self.encoding, lent, size, range, inserted)?);
        Ok(())
    }

    // Makes a call. A `match`, as wherever what was read chooses a step: each step takes what its case brings.
    pub(crate) fn make(&mut self, call: &Call) -> Result<(), Refusal>
        ensures { outcome (λ _. view self.new) result (view self.new) ≡ call_rule (calling (view self.old)) call.now }
    {
        self.called = true;
        match call {
            Call::Open(text) => self.open(text.as_slice()),
            Call::Replace(text) => self.replace(text.as_slice()),
            Call::Type(typing) => self.type_text(typing.range, typing.inserted.as_slice()),
        }
    }

    // The line that tells the text at hand.
    pub(crate) fn state(&self, heap: Global) -> Result<String, AllocError>
        ensures { IfOk result (λ s. string_bytes s ≡ told (view self.now)) }
    {
        match self.text() {
            Some(text) => tell(heap, text),
            None => String::from_str(heap, "no text"),
        }
    }
}

// What is told of a text: how many lines and bytes it has, and the text.
fn tell(heap: Global, text: &[u8]) -> Result<String, AllocError>
    ensures { IfOk result (λ s. string_bytes s ≡ telling text.now) }
{
    let lines = line_count(text);
    let bytes = text.len();
    let mut told = format!(in heap; "text lines={lines} bytes={bytes} text=")?;
    write_text(text, &mut told)?;
    Ok(told)
}

// The size of the text that a change is made to. What is checked here comes before its positions, and the numbers are
// tried in their order: 9, which the library does not know, comes behind those for the memory and for the inserted text.
fn check_ready(lent: &[u8], size: Option<usize>, inserted: &[u8]) -> Result<usize, Refusal>
    ensures rule { outcome (λ _. tt) result tt ≡ ready_rule (unsound lent.now (unwrap_or size 0)) (is_some size) inserted.now }
    ensures size { IfOk result (λ n. size ≡ Some n) }
{
    if !holds_text(lent, size.unwrap_or(0)) {
        return Err(Refusal::Memory);
    }
    check(inserted)?;
    size.ok_or(Refusal::DocumentState)
}
