// The queue of the slots that were met, and meeting a slot: its origin is written and it is queued, unless it was met before.
ghost use Rattle.search.specs.Meet.{MeetAsks, MeetSays, SameQueue};

// What the workspace holds stands in specs/Workspace.antt: 0, 1 or index + 2 in words of 32 bits, since the words are the caller's, lent through C.
#[derive(Drop)]
pub(crate) struct Queue<'a> {
    pub(crate) work: &'a mut [u32],
    // How many slots there are.
    pub(crate) slots: usize,
    // How many are queued.
    pub(crate) tail: usize,
}

impl Queue<'_> {
    // Meets slot x with an origin.
    pub(crate) fn meet(&mut self, x: usize, origin: usize)
        requires { MeetAsks self.old.slots self.old.work.now self.old.tail x origin }
        ensures says { MeetSays self.old.slots self.old.work.now self.old.tail x origin self.new.tail self.new.work.now }
        ensures same { SameQueue self.old self.new }
    {
        if self.work[x] != 0 {
            return;
        }
        // Both are below 2^32 (`MeetAsks`); `TryFrom` would have an arm that is never reached.
        self.work[x] = origin as u32;
        self.work[self.slots + self.tail] = x as u32;
        self.tail += 1;
    }
}
