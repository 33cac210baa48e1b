// Where the numbers of a plan lie, behind its columns: specs/Numbers.antt says what each is.
pub const ROWS: usize = 385;

pub const FRESH: usize = 386;

pub const FRAME: usize = 387;

pub const SLOT: usize = 388;

pub const INDEX: usize = 389;

pub const ENTRIES_END: usize = 390;

pub const INDEX_END: usize = 391;

pub const NAMELIST: usize = 392;

pub const NAMES_END: usize = 393;

pub const NAMELIST_END: usize = 394;

pub const NAMES_AT: usize = 395;

pub const SEGMENTS: usize = 396;

pub const INDEX_AT: usize = 397;

pub const SLOTS: usize = 398;
