// The extended codes: one table of code, length and kind, searched by word for the reader and by kind for
// the writer.
ghost use Rattle.std.specs.Prelude.{◌≡◌, ◌↔◌, IsTrue};
ghost use Rattle.code.specs.Codes.{rows, covers, find_word, find_kind, length_of, privileged};

use word::long::LongShift;

#[derive(Clone, Copy, Debug, PartialEq, Eq)]
pub enum Register {
    A,
    B,
}

#[derive(Clone, Copy, Debug, PartialEq, Eq)]
pub enum Index {
    X,
    Y,
}

// The data maps DATA1 and DATA2.
#[derive(Clone, Copy, Debug, PartialEq, Eq)]
pub enum Data {
    One,
    Two,
}

// Loads, stores and compares of A or B through DATA1 or DATA2: `Xl`, B, `Two` is XLB2.
#[derive(Clone, Copy, Debug, PartialEq, Eq)]
pub enum Cross {
    Xl,
    Xs,
    Xc,
}

// Between A or B and X or Y: `Sax`, B, Y is SBY.
#[derive(Clone, Copy, Debug, PartialEq, Eq)]
pub enum Transfer {
    Sax,
    Cax,
    Lax,
    Cxa,
    Xax,
}

// Of X or Y alone: `Stx`, Y is STY.
#[derive(Clone, Copy, Debug, PartialEq, Eq)]
pub enum Indexing {
    Stx,
    Ldx,
    Adx,
    Isx,
    Dsx,
}

// With one address word, on A and B.
#[derive(Clone, Copy, Debug, PartialEq, Eq)]
pub enum Arithmetic {
    Mpy,
    Div,
    Dld,
    Dst,
}

#[derive(Clone, Copy, Debug, PartialEq, Eq)]
pub enum Bytes {
    Lbt,
    Sbt,
    Mbt,
    Cbt,
}

#[derive(Clone, Copy, Debug, PartialEq, Eq)]
pub enum Bits {
    Sbs,
    Cbs,
    Tbs,
}

#[derive(Clone, Copy, Debug, PartialEq, Eq)]
pub enum Words {
    Cmw,
    Mvw,
}

// The exact codes.
#[derive(Clone, Copy, Debug, PartialEq, Eq)]
pub enum Extended {
    Cross(Cross, Register, Data),
    Transfer(Transfer, Register, Index),
    Indexing(Indexing, Index),
    Arithmetic(Arithmetic),
    Bytes(Bytes),
    Bits(Bits),
    Words(Words),
}

// What a row of the table is of: an exact code, or a long shift, whose low four bits are a count.
#[derive(Clone, Copy, Debug, PartialEq, Eq)]
pub enum Kind {
    Exact(Extended),
    Long(LongShift),
}

// A row of the table as a search gives it.
#[derive(Clone, Copy, Debug, PartialEq, Eq)]
pub struct Entry {
    pub code: u16,
    pub length: u16,
    pub kind: Kind,
}

// A row by its code, its length, and its kind in short.
macro_rules! row {
    ($code:literal, $length:literal, Cross($operation:ident, $register:ident, $map:ident)) => {
        Entry {
            code: $code,
            length: $length,
            kind: Kind::Exact(Extended::Cross(
                Cross::$operation,
                Register::$register,
                Data::$map,
            )),
        }
    };
    ($code:literal, $length:literal, Transfer($operation:ident, $register:ident, $index:ident)) => {
        Entry {
            code: $code,
            length: $length,
            kind: Kind::Exact(Extended::Transfer(
                Transfer::$operation,
                Register::$register,
                Index::$index,
            )),
        }
    };
    ($code:literal, $length:literal, Indexing($operation:ident, $index:ident)) => {
        Entry {
            code: $code,
            length: $length,
            kind: Kind::Exact(Extended::Indexing(Indexing::$operation, Index::$index)),
        }
    };
    ($code:literal, $length:literal, Long($shift:ident)) => {
        Entry {
            code: $code,
            length: $length,
            kind: Kind::Long(LongShift::$shift),
        }
    };
    ($code:literal, $length:literal, $group:ident($operation:ident)) => {
        Entry {
            code: $code,
            length: $length,
            kind: Kind::Exact(Extended::$group($group::$operation)),
        }
    };
}

static TABLE: [Entry; 61] = [
    row!(0o100020, 1, Long(Asl)),
    row!(0o100040, 1, Long(Lsl)),
    row!(0o100100, 1, Long(Rrl)),
    row!(0o100200, 2, Arithmetic(Mpy)),
    row!(0o100400, 2, Arithmetic(Div)),
    row!(0o101020, 1, Long(Asr)),
    row!(0o101040, 1, Long(Lsr)),
    row!(0o101100, 1, Long(Rrr)),
    row!(0o101721, 2, Cross(Xl, A, Two)),
    row!(0o101722, 2, Cross(Xs, A, Two)),
    row!(0o101723, 2, Cross(Xc, A, Two)),
    row!(0o101724, 2, Cross(Xl, A, One)),
    row!(0o101725, 2, Cross(Xs, A, One)),
    row!(0o101726, 2, Cross(Xc, A, One)),
    row!(0o101740, 2, Transfer(Sax, A, X)),
    row!(0o101741, 1, Transfer(Cax, A, X)),
    row!(0o101742, 2, Transfer(Lax, A, X)),
    row!(0o101744, 1, Transfer(Cxa, A, X)),
    row!(0o101747, 1, Transfer(Xax, A, X)),
    row!(0o101750, 2, Transfer(Sax, A, Y)),
    row!(0o101751, 1, Transfer(Cax, A, Y)),
    row!(0o101752, 2, Transfer(Lax, A, Y)),
    row!(0o101754, 1, Transfer(Cxa, A, Y)),
    row!(0o101757, 1, Transfer(Xax, A, Y)),
    row!(0o104200, 2, Arithmetic(Dld)),
    row!(0o104400, 2, Arithmetic(Dst)),
    row!(0o105721, 2, Cross(Xl, B, Two)),
    row!(0o105722, 2, Cross(Xs, B, Two)),
    row!(0o105723, 2, Cross(Xc, B, Two)),
    row!(0o105724, 2, Cross(Xl, B, One)),
    row!(0o105725, 2, Cross(Xs, B, One)),
    row!(0o105726, 2, Cross(Xc, B, One)),
    row!(0o105740, 2, Transfer(Sax, B, X)),
    row!(0o105741, 1, Transfer(Cax, B, X)),
    row!(0o105742, 2, Transfer(Lax, B, X)),
    row!(0o105743, 2, Indexing(Stx, X)),
    row!(0o105744, 1, Transfer(Cxa, B, X)),
    row!(0o105745, 2, Indexing(Ldx, X)),
    row!(0o105746, 2, Indexing(Adx, X)),
    row!(0o105747, 1, Transfer(Xax, B, X)),
    row!(0o105750, 2, Transfer(Sax, B, Y)),
    row!(0o105751, 1, Transfer(Cax, B, Y)),
    row!(0o105752, 2, Transfer(Lax, B, Y)),
    row!(0o105753, 2, Indexing(Stx, Y)),
    row!(0o105754, 1, Transfer(Cxa, B, Y)),
    row!(0o105755, 2, Indexing(Ldx, Y)),
    row!(0o105756, 2, Indexing(Adx, Y)),
    row!(0o105757, 1, Transfer(Xax, B, Y)),
    row!(0o105760, 1, Indexing(Isx, X)),
    row!(0o105761, 1, Indexing(Dsx, X)),
    row!(0o105763, 1, Bytes(Lbt)),
    row!(0o105764, 1, Bytes(Sbt)),
    row!(0o105765, 3, Bytes(Mbt)),
    row!(0o105766, 3, Bytes(Cbt)),
    row!(0o105770, 1, Indexing(Isx, Y)),
    row!(0o105771, 1, Indexing(Dsx, Y)),
    row!(0o105773, 3, Bits(Sbs)),
    row!(0o105774, 3, Bits(Cbs)),
    row!(0o105775, 3, Bits(Tbs)),
    row!(0o105776, 3, Words(Cmw)),
    row!(0o105777, 3, Words(Mvw)),
];

impl Entry {
    // Whether it is the row of a word.
    fn covers(self, word: u16) -> bool
        ensures { result ≡ covers word self }
    {
        match self.kind {
            Kind::Exact(_) => word == self.code,
            Kind::Long(_) => word / 16 == self.code / 16,
        }
    }

    // Whether it is the row of a kind.
    fn is_of(self, kind: Kind) -> bool
        ensures { IsTrue result ↔ (self.kind ≡ kind) }
    {
        self.kind == kind
    }
}

// Where most words have their row: the numbers of the rows of 1017xx, and then of 1057xx, by the last two digits, and 0 where
// there is none. A wrong number costs time alone, as the row is asked.
static HINTS: [[u8; 8]; 16] = [
    [0, 0, 0, 0, 0, 0, 0, 0],
    [0, 0, 0, 0, 0, 0, 0, 0],
    [0, 8, 9, 10, 11, 12, 13, 0],
    [0, 0, 0, 0, 0, 0, 0, 0],
    [14, 15, 16, 0, 17, 0, 0, 18],
    [19, 20, 21, 0, 22, 0, 0, 23],
    [0, 0, 0, 0, 0, 0, 0, 0],
    [0, 0, 0, 0, 0, 0, 0, 0],
    [0, 0, 0, 0, 0, 0, 0, 0],
    [0, 0, 0, 0, 0, 0, 0, 0],
    [0, 26, 27, 28, 29, 30, 31, 0],
    [0, 0, 0, 0, 0, 0, 0, 0],
    [32, 33, 34, 35, 36, 37, 38, 39],
    [40, 41, 42, 43, 44, 45, 46, 47],
    [48, 49, 0, 50, 51, 52, 53, 0],
    [54, 55, 0, 56, 57, 58, 59, 60],
];

// The codes rise, and no row has a word of the next one's: a row that covers the word is its row, and the last row whose code
// is not past the word is the only other one to ask. By the halving alone a step with an extended code takes a fifth longer.
pub fn find_word(word: u16) -> Option<Entry>
    ensures { result ≡ find_word word }
{
    let hint = HINTS[usize::from(word / 0o4000 % 2 * 8 + word / 8 % 8)][usize::from(word % 8)];
    if let Some(row) = TABLE.get(usize::from(hint))
        && row.covers(word)
    {
        return Some(*row);
    }
    let end = TABLE.partition_point(|row| row.code <= word);
    if end == 0 {
        return None;
    }
    let row = TABLE[end - 1];
    row.covers(word).then_some(row)
}

pub fn find_kind(kind: Kind) -> Option<Entry>
    ensures { result ≡ find_kind kind }
{
    TABLE.iter().copied().find(|row| row.is_of(kind))
}

// How many words an exact code takes.
#[tactic(auto, unfolding(crate::specs::Codes::length_of))]
pub fn extended_length(extended: Extended) -> u16
    ensures { result ≡ length_of extended }
{
    find_kind(Kind::Exact(extended)).map_or(0, |row| row.length)
}

// The codes that are violations with protection on.
pub fn is_privileged(word: u16) -> bool
    ensures { result ≡ privileged word }
{
    (0o105700..=0o105711).contains(&word)
}
