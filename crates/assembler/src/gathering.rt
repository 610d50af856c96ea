// The first pass over a text: the labels, with the addresses that they stand for.
ghost use Rattle.std.specs.Prelude.{◌≡◌, [], ◌<◌, IfSome};
ghost use Rattle.std.specs.Bool.{then_some};
ghost use Rattle.std.specs.Option.{option_or};
ghost use Rattle.assembler.specs.Gathering.{Gathers, Added, is_known};
ghost use Rattle.assembler.specs.Keys.{key_number};
ghost use Rattle.assembler.specs.Tables.{Tabled};

use crate::AssembleError;
use crate::bytes::line_end;
use crate::keys::Key;
use crate::labels::Labels;
use crate::openings::{counts, open_line};

// Adds the label, where there is one; answers whether it was there before.
fn note(labels: &mut Labels, key: Option<Key>, address: usize) -> bool
    requires { IfSome key (λ k. labels.old.count < 1024) }
    ensures known { result ≡ is_known labels.old (key_number key) }
    ensures added { Added labels.old (key_number key) address labels.new }
{
    let Some(key) = key else {
        return false;
    };
    let known = labels.contains(key);
    labels.insert(key, address);
    known
}

// The first line that repeats a label, after one that may have none, or does again.
fn first_of(twice: Option<usize>, again: bool, line: usize) -> Option<usize>
    ensures { result ≡ option_or twice (then_some again line) }
{
    if again { twice.or(Some(line)) } else { twice }
}

// The labels of a text, in a table that is empty before. `room` is how many words are lent.
pub fn gather(text: &[u8], room: usize, labels: &mut Labels) -> Result<(), AssembleError>
    requires { Tabled labels.old [] }
    ensures { Gathers text.now room result labels.new }
{
    let mut s = 0;
    let mut line = 1;
    let mut words = 0;
    let mut twice = None;
    while s <= text.len() {
        let e = line_end(text, s);
        let l = &text[s..e];
        let o = open_line(l);
        let counted = counts(l, o);
        if o.key.is_some() & labels.is_full() {
            return Err(AssembleError::TooMany);
        }
        if counted & (words == room) {
            return Err(AssembleError::TooMany);
        }
        let again = note(labels, o.key, words);
        twice = first_of(twice, again, line);
        words += usize::from(counted);
        line += 1;
        s = e + 1;
    }
    if let Some(line) = twice {
        return Err(AssembleError::DoubledLabel(line));
    }
    Ok(())
}
