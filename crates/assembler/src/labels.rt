// The labels that a text defines: chains of entries, the last one first (specs/Chains.antt).
ghost use Rattle.std.specs.Prelude.{◌≡◌, [], ◌<◌, ◌≤◌, eqb, IfSome};
ghost use Rattle.assembler.specs.Chains.{Chained, capped};
ghost use Rattle.assembler.specs.Entries.{keys_of, nexts_of};

use crate::keys::Key;

// How many labels the table holds.
const LIMIT: usize = 1024;

// Any address from here on is out of every target's range.
const FAR: usize = 0x800000;

// A label, its address, and the entry before it of the same hash: entries are counted from 1 there, and 0 is none.
#[derive(Clone, Copy)]
struct Entry {
    key: u64,
    place: u32,
    next: u16,
}

// The last entry of each hash, counted as in an entry; the entries, of which the first `count` are labels.
#[derive(Drop)]
pub struct Labels {
    heads: [u16; 1024],
    entries: [Entry; LIMIT],
    count: usize,
    pub ghost few: { count ≤ 1024 },
    pub ghost chained: { Chained heads (nexts_of entries) (keys_of entries) count },
}

fn cap(address: usize) -> u32
    ensures { result ≡ capped address }
{
    address.min(FAR) as u32
}

impl Labels {
    ghost use Rattle.std.specs.Prelude.{is_some};
    ghost use Rattle.assembler.specs.Tables.{Tabled, Inserted, index_of, address_of};

    pub fn new() -> Self
        ensures { Tabled result [] }
    {
        Labels {
            heads: [0; 1024],
            entries: [Entry {
                key: 0,
                place: 0,
                next: 0,
            }; LIMIT],
            count: 0,
        }
    }

    pub fn is_full(&self) -> bool
        ensures { result ≡ eqb self.now.count 1024 }
    {
        self.count == LIMIT
    }

    // The last entry of the label.
    fn find(&self, key: Key) -> Option<usize>
        ensures value { result ≡ index_of self.now key.number }
        ensures within { IfSome result (λ k. k < 1024) }
    {
        let mut k = self.heads[key.hash()] as usize;
        while 0 < k {
            let entry = self.entries[k - 1];
            if entry.key == key.number {
                return Some(k - 1);
            }
            k = entry.next as usize;
        }
        None
    }

    pub fn contains(&self, key: Key) -> bool
        ensures { result ≡ is_some (index_of self.now key.number) }
    {
        self.find(key).is_some()
    }

    // The address of the label, if it is there.
    pub fn address_of(&self, key: Key) -> Option<u32>
        ensures { result ≡ address_of self.now key.number }
    {
        let k = self.find(key)?;
        Some(self.entries[k].place)
    }

    // Adds the label with its address.
    pub fn insert(&mut self, key: Key, address: usize)
        requires { self.old.count < 1024 }
        ensures { Inserted self.old key.number address self.new }
    {
        let h = key.hash();
        self.entries[self.count] = Entry {
            key: key.number,
            place: cap(address),
            next: self.heads[h],
        };
        self.count += 1;
        self.heads[h] = self.count as u16;
    }
}
