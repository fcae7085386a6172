// Cutting a file into lines.
ghost use Rattle.std.specs.Prelude.{◌≡◌, ◌+◌, ◌<◌, ◌≤◌, length, take, drop};
ghost use Rattle.std.specs.List.{position, position_or_len};
ghost use Rattle.day.specs.Cutting.{is_newline};

fn newline_in(bytes: &[u8]) -> Option<usize>
    ensures { result ≡ position is_newline bytes.now }
{
    bytes.iter().position(|byte| *byte == b'\n')
}

// How many bytes stand before the first newline.
#[tactic(auto, using(crate::proofs::Cuts::end_is))]
fn line_end(bytes: &[u8]) -> usize
    ensures { result ≡ position_or_len is_newline bytes.now }
{
    newline_in(bytes).unwrap_or(bytes.len())
}

// The first line, and what follows its newline.
pub(crate) fn cut(bytes: &[u8]) -> (&[u8], &[u8])
    ensures line { result.0.now ≡ take (position_or_len is_newline bytes.now) bytes.now }
    ensures rest { result.1.now ≡ drop (position_or_len is_newline bytes.now + 1) bytes.now }
    ensures shorter { 0 < length bytes.now → length result.1.now < length bytes.now }
{
    let end = line_end(bytes);
    if end < bytes.len() {
        (&bytes[..end], &bytes[end + 1..])
    } else {
        (bytes, &[])
    }
}
