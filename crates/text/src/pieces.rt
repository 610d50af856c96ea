// A text in pieces, each bytes and then hex digits.
ghost use Rattle.std.specs.Prelude.{◌≤◌, length};

// Bytes, and the low `width` hex digits of `value`.
#[derive(Clone, Copy)]
pub struct Piece {
    pub bytes: &'static [u8],
    pub width: u8,
    pub value: u64,
    pub ghost short: { length bytes.now ≤ 8 },
}

#[derive(Clone, Copy)]
pub struct Form {
    pub name: Piece,
    pub first: Piece,
    pub second: Piece,
    pub last: Piece,
}
