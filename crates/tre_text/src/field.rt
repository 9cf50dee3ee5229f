// The fields of a line.
ghost use Rattle.std.specs.Prelude.{◌≡◌, ◌<◌, ◌≤◌, nat_lt, not, ◌&&◌, [], ◌∷◌, length, true, false, IfNone, IfSome, slice_index, slice_index_or};
ghost use Rattle.std.specs.List.{position_or_len};
ghost use Rattle.std.specs.Str.Lines.{strip_carriage_return};
ghost use Rattle.tre_text.specs.TextReading.{is_blank, fields_among};
ghost use Rattle.tre_text.specs.Words.{IsRest};

/// Whether the byte parts fields.
#[inline(always)]
pub fn is_blank(byte: u8) -> bool
    ensures { result ≡ is_blank byte }
{
    byte == b' ' || byte == b'\t'
}

/// The line without the one carriage return at its end, where there is one.
#[inline(always)]
pub fn without_return(line: &[u8]) -> &[u8]
    ensures { result.now ≡ strip_carriage_return line.now }
{
    let len = line.len();
    if len > 0 && line[len - 1] == b'\r' {
        return &line[..len - 1];
    }
    line
}

/// The bytes from the first on that is no blank.
#[inline(always)]
pub fn skip_blanks(bytes: &[u8]) -> &[u8]
    ensures fields { fields_among bytes.now ≡ fields_among result.now }
    ensures shorter { length result.now ≤ length bytes.now }
    ensures first { 0 < length result.now → is_blank (slice_index_or result.now 0 0) ≡ false }
    ensures rest { IsRest bytes.now result.now }
{
    let mut start = 0;
    while start < bytes.len() && is_blank(bytes[start]) {
        start += 1;
    }
    &bytes[start..]
}

// The place of the first blank; the length where there is none.
fn first_blank(bytes: &[u8]) -> usize
    ensures place { result ≡ position_or_len is_blank bytes.now }
    ensures within { result ≤ length bytes.now }
{
    for (place, &byte) in bytes.iter().enumerate() {
        if is_blank(byte) {
            return place;
        }
    }
    bytes.len()
}

// Whether the first field is one byte, behind which a blank stands.
#[inline(always)]
fn has_byte_field(bytes: &[u8]) -> bool
    ensures is { result ≡ (nat_lt 1 (length bytes.now)
        && (not (is_blank (slice_index bytes.now 0)) && is_blank (slice_index bytes.now 1))) }
    ensures long { result ≡ true → 2 ≤ length bytes.now }
{
    1 < bytes.len() && !is_blank(bytes[0]) && is_blank(bytes[1])
}

/// The first field of the bytes, and what stands behind the blank after it.
#[inline(always)]
pub fn next_field(bytes: &[u8]) -> Option<(&[u8], &[u8])>
    ensures none { IfNone result (fields_among bytes.now ≡ []) }
    ensures field { IfSome result (λ parts. fields_among bytes.now ≡ parts.0.now ∷ fields_among
        parts.1.now) }
    ensures some { IfSome result (λ parts. 0 < length parts.0.now) }
    ensures shorter { IfSome result (λ parts. length parts.1.now < length bytes.now) }
{
    if has_byte_field(bytes) {
        return Some((&bytes[..1], &bytes[2..]));
    }
    let bytes = skip_blanks(bytes);
    if bytes.is_empty() {
        return None;
    }
    let end = first_blank(bytes);
    if end == bytes.len() {
        return Some((bytes, &[]));
    }
    Some((&bytes[..end], &bytes[end + 1..]))
}
