// A reader of either format, which is fed bytes.
use tre_trace::TraceKind::Memory;
use tre_trace::{Segment, TraceFault, TraceReader};

// Feeds a piece, where the reader has room for it.
pub(crate) fn feed<R: TraceReader>(
    reader: &mut R,
    piece: &[u8],
    segments: &mut Vec<Segment>,
) -> Result<(), TraceFault> {
    if reader.fed() > 1 << 40 || piece.len() > 1 << 40 {
        return Err(TraceFault {
            place: 0,
            kind: Memory,
        });
    }
    reader.feed(piece, segments)
}
