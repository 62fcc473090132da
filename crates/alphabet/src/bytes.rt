ghost use Rattle.alphabet.specs.ByteClasses.{byte_meaning};
ghost use Rattle.alphabet.specs.BytesAlphabetLemmas.{full, none, small};

use super::Alphabet;

// The bytes: a class for each byte alone, numbered as the byte is, and five classes of more.
#[derive(Clone, Copy)]
pub struct Bytes;

// The classes stay numbers: a pattern file names them, and a caller may ask about any number.
impl Bytes {
    // Any byte.
    pub const ANY: u32 = 256;

    // A decimal digit.
    pub const DIGIT: u32 = 257;

    // An ASCII letter, capital or small.
    pub const LETTER: u32 = 258;

    // Any byte but comma, 0x0D and 0x0A: what a field of a row may hold.
    pub const IN_FIELD: u32 = 259;

    // Any byte but 0x0A: what a line may hold.
    pub const IN_LINE: u32 = 260;

    // How many classes there are.
    pub const CLASSES: u32 = 261;
}

impl Alphabet for Bytes {
    type Symbol = u8;

    ghost meaning = { λ _. byte_meaning };

    ghost lawful = { λ a. record { inhabited = full; bounded = none; small = small } };

    fn class_count(&self) -> u32 {
        Bytes::CLASSES
    }

    fn belongs(&self, class: u32, symbol: &u8) -> bool {
        let byte = *symbol;
        match class {
            Bytes::ANY => true,
            Bytes::DIGIT => byte.is_ascii_digit(),
            Bytes::LETTER => byte.is_ascii_alphabetic(),
            Bytes::IN_FIELD => !matches!(byte, b',' | b'\r' | b'\n'),
            Bytes::IN_LINE => byte != b'\n',
            // One byte alone, or past the last class, where no byte is.
            _ => byte as u32 == class,
        }
    }

    fn number(&self, symbol: &u8) -> u32 {
        *symbol as u32
    }
}
