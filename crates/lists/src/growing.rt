// A list that only grows, over a slice that the caller lends.
ghost use Rattle.std.specs.Prelude.{◌≡◌, ◌+◌, ◌<◌, ◌≤◌, min, [], ◌∷◌, ◌++◌, length, take, MatchResult, slice_set};

// The slice is full.
#[derive(Clone, Copy)]
pub struct Full;

// The list is the first `used` entries of the slice, which is lent: a `Vec` would own its memory. The clauses on names
// say that it stays the lender's slice, so that the lender knows what it holds afterwards; so do those on the fields: what
// the lender gets back is the whole slice, not the entries alone.
#[derive(Drop)]
pub struct Growing<'a, T> {
    slots: &'a mut [T],
    used: usize,
    ghost inside: { used ≤ length slots.now },
}

impl<'a, T: Copy> Growing<'a, T> {
    // An empty list.
    pub fn new(slots: &'a mut [T]) -> Growing<'a, T>
        ensures slots { result.slots.now ≡ slots.old }
        ensures slots_name { result.slots.ghost_name ≡ slots.entry.ghost_name }
        ensures used { result.used ≡ 0 }
    {
        Growing { slots, used: 0 }
    }

    // A list that goes on from the first entries of the slice, all of them if it has fewer.
    pub fn resume(slots: &'a mut [T], used: usize) -> Growing<'a, T>
        ensures slots { result.slots.now ≡ slots.old }
        ensures slots_name { result.slots.ghost_name ≡ slots.entry.ghost_name }
        ensures used { result.used ≡ min used (length slots.old) }
    {
        let used = used.min(slots.len());
        Growing { slots, used }
    }

    // One entry more, or refused where the slice is full, with everything as it was.
    pub fn push(&mut self, x: T) -> Result<(), Full>
        ensures slots { MatchResult result (λ _. self.new.slots.now ≡ slice_set self.old.slots.now self.old.used x) (λ _. self.new.slots.now ≡ self.old.slots.now) }
        ensures used { MatchResult result (λ _. self.new.used ≡ self.old.used + 1) (λ _. self.new.used ≡ self.old.used) }
        ensures full { MatchResult result (λ _. self.old.used < length self.old.slots.now) (λ _. length self.old.slots.now ≤ self.old.used) }
        ensures items { MatchResult result (λ _. take self.new.used self.new.slots.now ≡ take self.old.used self.old.slots.now ++ x ∷ []) (λ _. take self.new.used self.new.slots.now ≡ take self.old.used self.old.slots.now) }
        ensures slots_name { self.new.slots.ghost_name ≡ self.old.slots.ghost_name }
    {
        let at = self.used;
        if at >= self.slots.len() {
            return Err(Full);
        }
        self.slots[at] = x;
        self.used = at + 1;
        Ok(())
    }

    // The entries so far.
    pub fn as_slice(&self) -> &[T]
        ensures { result.now ≡ take self.now.used self.now.slots.now }
    {
        &self.slots[..self.used]
    }

    // How many entries there are so far.
    pub fn len(&self) -> usize
        ensures { result ≡ self.now.used }
    {
        self.as_slice().len()
    }
}
