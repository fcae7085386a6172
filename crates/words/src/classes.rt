// The bytes of a line, by what they may be part of.
ghost use Rattle.std.specs.Prelude.{◌≡◌, ◌<◌, ◌≤◌, length, position, IfSome};
ghost use Rattle.std.specs.List.{prefix_len};
ghost use Rattle.words.specs.Classes.{class_of, is_foreign, is_blank, is_joined, fault_of, FaultIs};

use terms::{Cause, Decline};

// What a byte may be part of: a name, a numeral, either's minus, a bracket, the room between words, or nothing.
#[derive(Clone, Copy, PartialEq, Eq, Debug)]
pub enum Class {
    Letter,
    Digit,
    Minus,
    Open,
    Close,
    Blank,
    Foreign,
}

// The class of a byte, which is read as a character.
fn class_of(byte: u8) -> Class
    ensures { result ≡ class_of byte }
{
    match byte as char {
        'a'..='z' => Class::Letter,
        '0'..='9' => Class::Digit,
        '-' => Class::Minus,
        '(' => Class::Open,
        ')' => Class::Close,
        ' ' => Class::Blank,
        _ => Class::Foreign,
    }
}

fn is_foreign(byte: u8) -> bool
    ensures { result ≡ is_foreign byte }
{
    matches!(class_of(byte), Class::Foreign)
}

fn is_blank(byte: u8) -> bool
    ensures { result ≡ is_blank byte }
{
    matches!(class_of(byte), Class::Blank)
}

// Whether the byte makes one word with its neighbours of this kind.
fn is_joined(byte: u8) -> bool
    ensures { result ≡ is_joined byte }
{
    !matches!(class_of(byte), Class::Open | Class::Close | Class::Blank)
}

// How many blanks the bytes begin with.
pub(crate) fn blanks_in(bytes: &[u8]) -> usize
    ensures value { result ≡ prefix_len is_blank bytes.now }
    ensures within { result ≤ length bytes.now }
{
    bytes.iter().take_while(|byte| is_blank(**byte)).count()
}

// How many bytes the word that they begin with has, if it is no bracket.
pub(crate) fn joined_in(bytes: &[u8]) -> usize
    ensures value { result ≡ prefix_len is_joined bytes.now }
    ensures within { result ≤ length bytes.now }
{
    bytes.iter().take_while(|byte| is_joined(**byte)).count()
}

// The index of the first byte that no word may have.
fn first_foreign(line: &[u8]) -> Option<usize>
    ensures value { result ≡ position is_foreign line.now }
    ensures within { IfSome result (λ i. i < length line.now) }
{
    line.iter().position(|byte| is_foreign(*byte))
}

// Declined with 2 for a line over 1,024 bytes, then with 3 at the first byte that no word may have.
pub fn check_bytes(line: &[u8]) -> Result<(), Decline>
    ensures { FaultIs (fault_of line.now) result }
{
    if line.len() > 1024 {
        return Err(Cause::LineTooLong.at(1025));
    }
    match first_foreign(line) {
        Some(at) => Err(Cause::ForeignByte.at(at + 1)),
        None => Ok(()),
    }
}
