//! The units of a stream.

/// What stands next in a stream. Each line is given without its LF and less one CR before it.
#[derive(Clone, Copy, Debug, PartialEq, Eq)]
pub enum Unit<'a> {
    /// No unit is whole yet.
    Wait,
    /// A line that asks for no block.
    Line(&'a [u8]),
    /// A line and the block that it asks for, which CR LF ends.
    LineWithBlock { line: &'a [u8], block: &'a [u8] },
    /// A line whose block is not ended by CR LF.
    BadChunk { line: &'a [u8] },
    /// A line whose block is above its limit, whatever the block's bytes are.
    TooLarge { line: &'a [u8] },
    /// A line whose block has more than 131,072 bytes with its CR LF, for which there was no memory. The block is passed
    /// over, whatever its bytes are.
    BlockNoMemory { line: &'a [u8] },
    /// 65,536 bytes without LF. Nothing is read behind them.
    LineTooLong,
}
