// A queue of entries that fall due, over a lent list.
#![tactic(auto)]

ghost use Rattle.std.specs.Prelude.{◌≡◌, ℕ, ◌<◌, ◌≤◌, [], length, OnSome};
ghost use Rattle.std.specs.List.{prefix_len};
ghost use Rattle.queue.specs.Schedule.{by_tick};
ghost use Rattle.queue.specs.Sorted.{push_answer, after_push, take_answer, after_take};
ghost use Rattle.queue.specs.Waiting.{PushLaw, TakeLaw};
ghost use Rattle.queue.specs.Runs.{RunLaw};

use disk::Refusal;

// An entry that can tell the tick at which it falls due.
pub trait Due {
    ghost tick: { Self → ℕ };

    fn due(&self) -> u32
        ensures { result ≡ tick self.now };
}

// What falls due at a tick.
#[derive(Clone, Copy, PartialEq, Eq, Debug)]
pub struct Deadline<T> {
    pub tick: u32,
    pub of: T,
}

impl<T> Due for Deadline<T> {
    ghost tick = { λ d. d.tick };

    fn due(&self) -> u32 {
        self.tick
    }
}

// A queue over a list that the caller lends. The first `count` places hold the entries, in the order in which they are
// handed out; what the others hold does not matter.
#[derive(Drop)]
pub struct Queue<'a, T> {
    list: &'a mut [T],
    count: usize,
    ghost within: { count ≤ length list.now },
}

impl<'a, T: Copy + Due> Queue<'a, T> {
    ghost use Rattle.queue.specs.Holdings.{entries, capacity};

    // An empty queue over a list of any length and content. `runs` tells what any run of pushes and takes does from here.
    pub fn new(list: &'a mut [T]) -> Queue<'a, T>
        ensures empty { entries result ≡ [] }
        ensures room { capacity result ≡ length list.old }
        ensures holds { result.list.now ≡ list.old }
        ensures lent { result.list.ghost_name ≡ list.entry.ghost_name }
        ensures runs { RunLaw (by_tick T.Due.tick) (capacity result) }
    {
        Queue { list, count: 0 }
    }

    // Puts an entry behind all that fall due no later, or refuses it where the list is full. `law` tells the same by the
    // entries that wait, in the order in which they were pushed.
    pub fn push(&mut self, entry: T) -> Result<(), Refusal>
        ensures answer { result ≡ push_answer (capacity self.old) (entries self.old) }
        ensures after { entries self.new ≡ after_push (by_tick T.Due.tick) (capacity self.old) entry (entries self.old) }
        ensures room { capacity self.new ≡ capacity self.old }
        ensures lent { self.new.list.ghost_name ≡ self.old.list.ghost_name }
        ensures law { PushLaw (by_tick T.Due.tick) (capacity self.old) entry (entries self.old) result (entries self.new) }
    {
        if self.count == self.list.len() {
            return Err(Refusal::QueueFull);
        }
        let at = self.place(&entry);
        self.list[self.count] = entry;
        self.list[at..=self.count].rotate_right(1);
        self.count += 1;
        Ok(())
    }

    // Hands out the entry that falls due first, of several the one that was pushed first, if it is due at tick `t`. `law`
    // tells the same by the entries that wait.
    pub fn take(&mut self, t: u32) -> Option<T>
        ensures answer { result ≡ take_answer (by_tick T.Due.tick) t (entries self.old) }
        ensures after { entries self.new ≡ after_take (by_tick T.Due.tick) t (entries self.old) }
        ensures room { capacity self.new ≡ capacity self.old }
        ensures lent { self.new.list.ghost_name ≡ self.old.list.ghost_name }
        ensures fewer { OnSome result (length (entries self.new) < length (entries self.old)) }
        ensures law { TakeLaw (by_tick T.Due.tick) t (entries self.old) result (entries self.new) }
    {
        let first = *self.entries().first()?;
        if first.due() > t {
            return None;
        }
        self.count -= 1;
        self.list[..=self.count].rotate_left(1);
        Some(first)
    }

    // The entries that wait, in the order in which they are handed out.
    fn entries(&self) -> &[T]
        ensures { result.now ≡ entries self.now }
    {
        &self.list[..self.count]
    }

    // Where an entry goes: in front of the first that falls due later.
    fn place(&self, entry: &T) -> usize
        ensures within { result ≤ length (entries self.now) }
        ensures front { result ≡ prefix_len (λ x. (by_tick T.Due.tick).no_later x entry.now) (entries self.now) }
    {
        self.entries()
            .iter()
            .take_while(|waiting| waiting.due() <= entry.due())
            .count()
    }
}
