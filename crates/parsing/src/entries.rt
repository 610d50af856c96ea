// The parts of an entry.
ghost use Rattle.std.specs.Prelude.{◌≡◌, [], MatchOption};
ghost use Rattle.parsing.specs.Entries.{is_blank, name_in, value_in};

// Whether a byte stands between entries.
pub fn is_blank(b: u8) -> bool
    ensures { result ≡ is_blank b }
{
    (b == b' ') | (b == b'\n')
}

// What stands in an entry before its first "=", and what behind it; none where it has none.
pub fn halves(entry: &[u8]) -> Option<(&[u8], &[u8])>
    ensures { MatchOption result (value_in entry.now ≡ []) (λ p. (p.0.now ≡ name_in entry.now) × (p.1.now ≡ value_in entry.now)) }
{
    let n = entry.iter().position(|b| *b == b'=')?;
    Some((&entry[..n], &entry[n + 1..]))
}
