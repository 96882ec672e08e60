// An open transaction.
ghost use Rattle.std.specs.Prelude.{◌≡◌, ℕ, ◌<◌, ◌≤◌, true, false, ◌||◌, length, position, replicate, is_some, is_ok, Err, OnErr, if◌then◌else◌, nat_lt};
ghost use Rattle.calls.specs.declared.refusal.Refusal.TheVariants.{WriteListFull};
ghost use Rattle.history.specs.Steps.{listed, list_code};
ghost use Rattle.board.specs.Lists.{write_list, is_for, Marked};

use calls::{Mode, Refusal, Write};

// The most items that a transaction lists.
pub const WRITES: usize = 8;

#[derive(Clone, Copy)]
pub struct Transaction {
    pub(crate) mode: Mode,
    pub(crate) start: u32,
    pub(crate) marks: [bool; 256],
    // The first `count` are listed. A board takes no memory from a heap and uses no crate beside this repository's, and a look-up hands out a
    // copy of all this: so the list lies in a table, and no invariant bounds its count, since a copy would have to give its fields back.
    pub(crate) writes: [Write; 8],
    pub(crate) count: usize,
}

impl Transaction {
    pub(crate) fn new(mode: Mode, start: u32) -> Transaction
        ensures mode { result.mode ≡ mode }
        ensures start { result.start ≡ start }
        ensures marks { result.marks ≡ replicate 256 false }
        ensures count { result.count ≡ 0 }
    {
        Transaction {
            mode,
            start,
            marks: [false; 256],
            writes: [Write { item: 0, code: 0 }; 8],
            count: 0,
        }
    }

    // The write list.
    pub(crate) fn writes_listed(&self) -> &[Write]
        ensures value { result.now ≡ write_list self.now }
        ensures within { length result.now ≤ 8 }
        ensures whole { length self.now.writes ≡ 8 }
    {
        let all = &self.writes[..];
        &all[0..self.count.min(all.len())]
    }

    // The code listed for an item.
    pub(crate) fn listed(&self, item: u32) -> Option<u32>
        ensures { result ≡ listed item (write_list self.now) }
    {
        let writes = self.writes_listed();
        find_item(writes, item).map(|at| writes[at].code)
    }

    // Marks an item as read.
    pub(crate) fn mark(&mut self, item: usize)
        requires { item < 256 }
        ensures { Marked self.old self.new item }
    {
        self.marks[item] = true;
    }

    // Lists a code, or replaces the one listed. Where eight other items are listed, nothing changes.
    pub(crate) fn list(&mut self, item: u32, code: u32) -> Result<(), Refusal>
        ensures room { is_ok result ≡ (is_some (listed item (write_list self.old)) || nat_lt (length (write_list self.old)) 8) }
        ensures full { OnErr result (result ≡ Err WriteListFull) }
        ensures listed { write_list self.new ≡ (if is_ok result then list_code item code (write_list self.old) else write_list self.old) }
        ensures mode { self.new.mode ≡ self.old.mode }
        ensures start { self.new.start ≡ self.old.start }
        ensures marks { self.new.marks ≡ self.old.marks }
    {
        let writes = self.writes_listed();
        let count = writes.len();
        match find_item(writes, item) {
            Some(at) => {
                self.writes[at] = Write { item, code };
                Ok(())
            }
            None if count < WRITES => {
                self.writes[count] = Write { item, code };
                self.count = count + 1;
                Ok(())
            }
            None => Err(Refusal::WriteListFull),
        }
    }
}

// Where an item stands in a write list.
fn find_item(writes: &[Write], item: u32) -> Option<usize>
    ensures { result ≡ position (is_for item) writes.now }
{
    writes.iter().position(|w| w.item == item)
}
