//! How far a feed has come with the response at its front.
use crate::chunk_line::LinePart;
use crate::response::Response;

/// How far a feed has come with the response at its front.
#[derive(Drop)]
pub(crate) enum Stage {
    /// A head, which doesn't end at a line feed before `from`.
    Head {
        from: usize,
    },
    /// A body that begins at the place `at`. What came of it is in the response.
    Body {
        response: Response,
        at: u64,
        part: Part,
    },
    /// A fault is told at the place `at`.
    Stopped {
        at: u64,
    },
}

/// The part of a body that comes next. A chunk's line stands at the place `line_at`.
#[derive(Clone, Copy)]
pub(crate) enum Part {
    /// The rest of a body of known length.
    Known { left: u32 },
    /// All up to the end of the input.
    ToEnd,
    /// A chunk line, which was read up to `from`.
    SizeLine { from: usize, part: LinePart },
    /// The rest of a chunk.
    Data { left: u32, line_at: u64 },
    /// The CR LF behind a chunk.
    DataEnd { line_at: u64 },
    /// The trailers, which don't end at a line feed before `from`.
    Trailers { from: usize },
}

impl Stage {
    pub const START: Stage = Stage::Head { from: 0 };
}

impl Part {
    pub const LINE_START: Part = Part::SizeLine {
        from: 0,
        part: LinePart::Digits(0),
    };
}
