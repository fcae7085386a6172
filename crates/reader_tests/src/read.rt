// Reading the lines of a table.
use decline_numbers::numbered;
use reader::read_line;
use std::process::Abort;

// Whether a line says a form, or nothing; or the number and place of its decline.
pub type Read = Result<bool, (u32, usize)>;

pub const BLANK: Read = Ok(false);

pub const FORM: Read = Ok(true);

pub fn read(line: &[u8]) -> Read {
    match read_line(line) {
        Ok(Some(_)) => FORM,
        Ok(None) => BLANK,
        Err(decline) => Err(numbered(decline)),
    }
}

pub fn check(rt: &impl Abort, lines: &[(&str, Read)]) {
    for (line, wanted) in lines {
        assert_eq!(rt; read(line.as_bytes()), *wanted, "at {line}");
    }
}
