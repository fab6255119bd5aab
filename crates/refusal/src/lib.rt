// Refusals: why a call is refused, by document 01's table, and where.
#![tactic(auto)]

ghost use Rattle.std.specs.Prelude.{◌≡◌};
ghost use Rattle.refusal.specs.Refusals.{number_of};

// Document 01, "Refusal numbers", in its order: the first is 1, the last 21. A number that comes later is appended.
#[derive(Clone, Copy, Debug, PartialEq, Eq)]
pub enum Why {
    // an element would pass the limit, or a bit range its buffer
    PastLimit = 1,
    // first 16 bits aren't 0x0B77
    NoSync,
    // probe gets under 6 bytes
    ShortHeader,
    // AC-3 fscod 3, or frmsizecod above 37
    BadSize,
    // bsid 9, 10, or above 16
    BadBsid,
    // bad argument: slot, strategy, width, range, total, log count or group state
    BadArgument,
    // grouped exponent above 124
    GroupAbove,
    // exponent outside 0..24
    ExponentOutside,
    // exponent set shorter than its range
    SetTooShort,
    // csnroffst, the five parameters, or coupling leak used before sent
    NotSent,
    // a side-information code is past its table
    CodePastTable,
    // exponent range doesn't cover the asked range
    NotCovered,
    // bap above 15 or hebap above 19 met on a walk
    PointerAbove,
    // composite GAQ gain above 26
    GainAbove,
    // deltbae 0 in block 0, or deltbae above 2
    BadDelta,
    // total below position + 18
    NoRoomForTail,
    // auxdatal overlaps audio, or exceeds auxbits
    BadAux,
    // elements don't tile the frame
    NotTiled,
    // log full
    LogFull,
    // frame length unfit for a CRC
    BadLength,
    // lent tables unfit
    BadTables,
}

// Why a call is refused, and the cursor's bit, 0 without a cursor.
// 0 and no Option: the document says so, each contract has it so (`grounds_of`), and C is told so.
#[derive(Clone, Copy, Debug, PartialEq, Eq)]
pub struct Refusal {
    pub why: Why,
    pub bit: usize,
}

impl Why {
    // The refusal at a bit.
    pub fn at(self, bit: usize) -> Refusal
        ensures { result ≡ record { why = self; bit = bit } }
    {
        Refusal { why: self, bit }
    }
}

// The document's number, for programs and for C.
pub fn number(why: Why) -> u8
    ensures { result ≡ number_of why }
{
    why as u8
}
