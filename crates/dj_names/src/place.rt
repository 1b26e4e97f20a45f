//! Places of byte offsets, for messages.
ghost use Rattle.std.specs.Prelude.{◌≡◌, not, ◌+◌, ◌<◌, ◌≤◌, length};
ghost use Rattle.dj_names.specs.Place.{line_ends_before, IsColumn, ends_line as is_line_end, continues_character};

/// A line and a column, each counted from 1. A line ends at LF, CR or CR LF, and a column counts characters.
#[derive(Clone, Copy, Debug, PartialEq, Eq)]
pub struct Place {
    pub line: u32,
    pub column: u32,
}

/// The place of a byte offset. The line is 1 plus the line ends that are complete before the offset, so between the
/// CR and the LF of one CR LF the old line goes on. The column is 1 plus the bytes outside 0x80 to 0xBF between the
/// line's start and the offset.
pub fn place_of(bytes: &[u8], offset: u32) -> Place
    requires within { offset ≤ length bytes.now }
    requires short { length bytes.now ≤ 4194305 }
    ensures line { result.line ≡ line_ends_before bytes.now offset + 1 }
    ensures column { IsColumn bytes.now offset result.column }
{
    let mut line = 1;
    let mut column = 1;
    for at in 0..offset as usize {
        if ends_line(bytes, at) {
            line += 1;
            column = 1;
        } else if begins_character(bytes[at]) {
            column += 1;
        }
    }
    Place { line, column }
}

/// Whether the byte at an offset is the last of a line end.
fn ends_line(bytes: &[u8], at: usize) -> bool
    requires { at < length bytes.now }
    ensures { result ≡ is_line_end bytes.now at }
{
    match bytes[at] {
        b'\n' => true,
        b'\r' => bytes.get(at + 1) != Some(&b'\n'),
        _ => false,
    }
}

/// Whether a byte is the first of its character.
fn begins_character(byte: u8) -> bool
    ensures { result ≡ not (continues_character byte) }
{
    !(0x80..=0xBF).contains(&byte)
}
