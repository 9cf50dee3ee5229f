// The line of a time, written from its end to its front into a buffer.
ghost use Rattle.std.specs.Prelude.{◌≡◌, ◌+◌, ◌≤◌, ◌++◌, codes, drop, length};
ghost use Rattle.tre_decimal.specs.Decimal.{number_text};
ghost use Rattle.tre_decimal.specs.declared.TheConstants.{SCALE_MAX};

use crate::line::{LINE_MAX, write_number, write_sign};

/// Writes a word and the time behind it as one line, so that it ends at `end`. Says where it
/// begins.
#[inline(always)]
pub fn write_time(word: &str, time: u64, scale: u8, buffer: &mut [u8], end: usize) -> usize
    requires scale { scale ≤ SCALE_MAX }
    requires room { (length word.now + LINE_MAX ≤ end) × (end ≤ length buffer.old) }
    ensures line { drop result buffer.new
        ≡ (word.now ++ number_text scale time ++ codes "\n") ++ drop end buffer.old }
    ensures begin { (end ≤ result + (length word.now + LINE_MAX)) × (result ≤ end) }
{
    let end = write_sign(b'\n', buffer, end);
    let end = write_number(time, scale, buffer, end);
    write_word(word.as_bytes(), buffer, end)
}

/// Writes the word, so that it ends at `end`. Says where it begins.
#[inline(always)]
pub fn write_word(word: &[u8], buffer: &mut [u8], end: usize) -> usize
    requires room { (length word.now ≤ end) × (end ≤ length buffer.old) }
    ensures text { drop result buffer.new ≡ word.now ++ drop end buffer.old }
    ensures begin { result + length word.now ≡ end }
{
    let begin = end - word.len();
    buffer[begin..end].copy_from_slice(word);
    begin
}
