// Why a call is refused. The C interface and the definitions have the numbers, include/dialmoth.h the same names.
ghost use Rattle.std.specs.Prelude.{◌≡◌};

use std::fmt;

// A call is refused exactly when its text holds; which of those that hold is answered stands with each call.
#[derive(Clone, Copy, Debug, PartialEq, Eq)]
pub enum Refusal {
    // image under 256 bytes
    ShortImage = 1,
    // image over 1,073,741,824 bytes
    LongImage = 2,
    // wrong magic
    WrongMagic = 3,
    // version not 1.0, 2.0 or 2.1
    WrongVersion = 4,
    // application or schema has no zero byte
    UnclosedText = 5,
    // index block starts below 256 or ends beyond the image
    IndexOutside = 6,
    // name block starts below 256 or ends beyond the image
    NamesOutside = 7,
    // index block and name block share a byte
    BlocksOverlap = 8,
    // a name has no zero byte before its block ends, in 1.0 before its segment does
    UnclosedName = 9,
    // more than 1,024 names
    ManyNames = 10,
    // two equal names
    EqualNames = 11,
    // an entry's location is negative, or below 256 and not 0
    LowLocation = 12,
    // an entry's type is not known in this version
    UnknownType = 13,
    // an entry's id is not below the number of names
    UnknownId = 14,
    // an entry's (frame, id) not above the entry before, in 1.0 a lower frame or a repeat
    FrameOrder = 15,
    // a chunk ends beyond the image
    ChunkOutside = 16,
    // a chunk shares a byte with a block
    ChunkInBlock = 17,
    // an entry's frame above 4,294,967,294
    LargeFrame = 18,
    // the image is of version 1.0
    OldImage = 20,
    // index or name location not a multiple of 8
    UnalignedBlock = 21,
    // sheet under 4 bytes, or its count is 0 or above 64
    RowCount = 22,
    // sheet shorter than its table
    ShortTable = 23,
    // a row with a type not known in this version, name length 0 or spare bytes not 0
    BadRow = 24,
    // sheet's length is not exactly table plus bodies
    SheetLength = 25,
    // a name of the sheet holds a zero byte
    ZeroInName = 26,
    // two rows of the sheet have one name
    NameTwice = 27,
    // names would pass 1,024
    NamesFull = 28,
    // the append would pass the image's end
    NoRoom = 29,
    // a float or double of the sheet is a NaN
    NanInSheet = 30,
    // the last frame is 4,294,967,294
    FramesFull = 31,
    // a refused begin's state, or a length or header words 8 to 32 not as it expects
    NotExpected = 32,
    // the reader, or a chunk found by it, does not fit the image
    NotFitting = 33,
    // frame not below the number of frames
    NoFrame = 40,
    // name not listed
    NoName = 41,
    // no such chunk in the frame
    NoChunk = 42,
    // element number not below N times M
    NoElement = 43,
    // n not below the number of names or of entries
    NoNth = 44,
    // more than 65,536 slots or segments
    LargeBlock = 50,
    // application or schema over 63 bytes or holding a zero byte
    BadText = 51,
    // image too short for its blocks
    ShortForBlocks = 52,
    // not floats or doubles, or M not 1 or 3
    NotFloats = 60,
    // N is 0
    NoRows = 61,
    // an element of the chunk is a NaN
    NanInChunk = 62,
    // the step or the time is not finite
    NotFinite = 63,
    // file slice not exactly as long as the file
    FileLength = 64,
    // file under 48 bytes
    RawArrayShort = 70,
    // file does not begin with rawarray
    RawArrayMagic = 71,
    // the file's flags are not 0
    RawArrayFlags = 72,
    // a type and width of elements that no chunk has
    RawArrayType = 73,
    // dimensions not 1 or 2, or not all in the file
    RawArrayDimensions = 74,
    // data length not the dimensions times the width, or beyond the file
    RawArrayData = 75,
    // M above 4,294,967,295
    RawArrayColumns = 76,
    // file slice not exactly as long as the RawArray file
    RawArrayLength = 77,
    // name of length 0, above 255 or holding a zero byte
    RawArrayName = 78,
    // sheet slice not exactly as long as the sheet
    RawArraySheet = 79,
}

impl Refusal {
    ghost use Rattle.gsd_format.specs.Answers.{refusal_number};

    // The number that the C interface answers; none is 0, which stands for no refusal.
    pub fn number(self) -> u64
        ensures { result ≡ refusal_number self }
    {
        self as u64
    }
}
