// Files as tables of lines, each with what it is answered.
use std::alloc::Global;
use std::process::Abort;
use std::test::*;

// What a line is answered: nothing, a decline by its layer, number and place, or other text.
#[derive(Clone, Copy)]
pub(crate) enum Reply {
    Nothing,
    No(&'static str, u32, usize),
    Text(&'static str),
}

// The file is answered with this text, as bytes at hand and as they are read and written.
pub(crate) fn answered(rt: &impl Abort, heap: Global, file: &[u8], text: &str) -> Result<(), Fail> {
    let answer = day::settle(heap, file)?;
    assert_eq!(rt; answer.as_str(), text);
    let mut written = Vec::new(heap);
    day::answer_file(heap, file, &mut written)?;
    assert_eq!(rt; written.as_slice(), text.as_bytes());
    Ok(())
}

fn reply_text(heap: Global, line: usize, reply: Reply) -> Result<String, Fail> {
    let text = match reply {
        Reply::Nothing => String::new(heap),
        Reply::No(layer, number, place) => {
            format!(in heap; "(no {layer} {number} {line} {place})\n")?
        }
        Reply::Text(text) => format!(in heap; "{text}\n")?,
    };
    Ok(text)
}

// The lines as one file, each answered so.
pub(crate) fn settles(
    rt: &impl Abort,
    heap: Global,
    lines: &[(&'static str, Reply)],
) -> Result<(), Fail> {
    let mut file = String::new(heap);
    let mut text = String::new(heap);
    for (line, (form, reply)) in lines.iter().enumerate() {
        file.push_str(form)?;
        file.push_str("\n")?;
        let said = reply_text(heap, line + 1, *reply)?;
        text.push_str(&said)?;
    }
    answered(rt, heap, file.as_bytes(), &text)
}

// A line, the number of the reader's decline, and its place.
pub(crate) type Declined = (&'static str, u32, usize);

// Each line, as a file of its own, is declined so.
pub(crate) fn declines(rt: &impl Abort, heap: Global, lines: &[Declined]) -> Result<(), Fail> {
    for (line, number, place) in lines {
        let text = reply_text(heap, 1, Reply::No("reader", *number, *place))?;
        answered(rt, heap, line.as_bytes(), &text)?;
    }
    Ok(())
}

// Each line, as a file of its own, is a form, which is out of place before a day.
pub(crate) fn well_formed(
    rt: &impl Abort,
    heap: Global,
    lines: &[&'static str],
) -> Result<(), Fail> {
    for line in lines {
        answered(rt, heap, line.as_bytes(), "(no reader 9 1 1)\n")?;
    }
    Ok(())
}
