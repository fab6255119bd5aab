// The functions that have recorded answers.
use crate::numbers::Row;
use crate::{
    alloc_entries, bit_entries, block_entries, crc_entries, exponent_entries, frame_entries,
    syntax_entries, walk_entries,
};

#[derive(Clone, Copy, Debug, PartialEq, Eq)]
pub enum Function {
    Get,
    Set,
    RangeEq,
    RangeZero,
    Crc16,
    Zeros,
    ReadElement,
    ReadRaw,
    Span,
    CloseSpan,
    CheckTiling,
    ElementAt,
    Allocate,
    ReadExponents,
    Conventional,
    Aht,
    DeltaCode,
    ReadDelta,
    AllocateBlock,
    Probe,
    ReadTail,
    CrcStatus,
    Repair,
}

// How many there are.
pub const COUNT: usize = 23;

// Each by its name, in the order in which their counts are told.
pub const NAMED: [(&str, Function); COUNT] = [
    ("get", Function::Get),
    ("set", Function::Set),
    ("range_eq", Function::RangeEq),
    ("range_zero", Function::RangeZero),
    ("crc16", Function::Crc16),
    ("zeros", Function::Zeros),
    ("read_element", Function::ReadElement),
    ("read_raw", Function::ReadRaw),
    ("span", Function::Span),
    ("close_span", Function::CloseSpan),
    ("check_tiling", Function::CheckTiling),
    ("element_at", Function::ElementAt),
    ("allocate", Function::Allocate),
    ("read_exponents", Function::ReadExponents),
    ("conventional", Function::Conventional),
    ("aht", Function::Aht),
    ("delta_code", Function::DeltaCode),
    ("read_delta", Function::ReadDelta),
    ("allocate_block", Function::AllocateBlock),
    ("probe", Function::Probe),
    ("read_tail", Function::ReadTail),
    ("crc_status", Function::CrcStatus),
    ("repair", Function::Repair),
];

impl Function {
    // The function of a name.
    pub fn named(name: &[u8]) -> Option<Function> {
        for (text, function) in NAMED {
            if text.as_bytes() == name {
                return Some(function);
            }
        }
        None
    }

    // Runs the function on what it is lent and asked, and gives the numbers of its answer.
    // A table of function pointers would be no plainer: each entry would take all four, though most use two or three.
    // Four parts and no struct: an entry takes those that its function looks at.
    pub fn run(self, first: &mut [u8], second: &mut [u8], words: &mut [u32], args: Row) -> Row {
        match self {
            Function::Get => bit_entries::get(first, args),
            Function::Set => bit_entries::set(first, args),
            Function::RangeEq => bit_entries::range_eq(first, second, args),
            Function::RangeZero => bit_entries::range_zero(first, args),
            Function::Crc16 => crc_entries::crc16(first, args),
            Function::Zeros => crc_entries::zeros(args),
            Function::ReadElement => syntax_entries::read_element(first, words, args),
            Function::ReadRaw => syntax_entries::read_raw(first, args),
            Function::Span => syntax_entries::span(first, words, args),
            Function::CloseSpan => syntax_entries::close_span(first, words, args),
            Function::CheckTiling => syntax_entries::check_tiling(words, args),
            Function::ElementAt => syntax_entries::element_at(words, args),
            Function::Allocate => alloc_entries::allocate(first, second, words, args),
            Function::ReadExponents => exponent_entries::read_exponents(first, second, words, args),
            Function::Conventional => walk_entries::conventional(first, second, args),
            Function::Aht => walk_entries::aht(first, second, args),
            Function::DeltaCode => block_entries::delta_code(second, args),
            Function::ReadDelta => block_entries::read_delta(first, second, words, args),
            Function::AllocateBlock => block_entries::allocate_block(first, second, words, args),
            Function::Probe => frame_entries::probe(first),
            Function::ReadTail => frame_entries::read_tail(first, words, args),
            Function::CrcStatus => frame_entries::crc_status(first, args),
            Function::Repair => frame_entries::repair(first, args),
        }
    }
}
