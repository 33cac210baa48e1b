// An extent of stores, and the function that makes the next store of one.
ghost use Rattle.std.specs.Prelude.{◌≡◌, ℕ, ◌+◌, ◌-◌, ◌*◌, ◌≤◌, ◌<◌, length, get_or, take};
ghost use Rattle.gsd_format.specs.Bytes.{le, le_bytes, stored};
ghost use Rattle.gsd_extents.specs.Exec.{place_of, over, text_of, source_of, word_of, Good, Near, tasks_from, exec};

use gsd_bytes::{put_word, u64_at};

// What the words of an extent are.
#[derive(Clone, Copy, Debug, PartialEq, Eq)]
pub enum Kind {
    // the image from `from` on, cut off at `until`, with zeros behind
    Copy,
    // a row's data: the sheet in the same way
    Data,
    // the number `value`
    Number,
    // a name: the sheet's bytes from `from` to `until`, laid over the image from place `value` on. Its words go from the last to the
    // first
    Name,
}

// So many words from place `to` upwards, stored one after the other. The kind says what they are. It stands beside the fields, and its
// variants have none: place_of, source_of and Good, which the theorems of the stores are about, read them whatever the kind is.
#[derive(Clone, Copy)]
pub struct Extent {
    pub kind: Kind,
    pub to: usize,
    pub words: usize,
    pub from: usize,
    pub until: usize,
    pub value: u64,
}

impl Extent {
    fn place(self, w: usize) -> usize
        requires target { self.to + 8 * self.words < 18446744073709551616 }
        requires word { w < self.words }
        ensures { result ≡ place_of self w }
    {
        match self.kind {
            Kind::Name => self.to + 8 * (self.words - 1 - w),
            _ => self.to + 8 * w,
        }
    }

    // How many of the first e words are near.
    fn near_count(self, e: usize) -> usize
        requires { self.from ≤ self.until }
        ensures bound { result ≤ e }
        ensures near { (w : ℕ) → w < result → Near self w }
    {
        match self.kind {
            Kind::Copy | Kind::Data => e.min((self.until - self.from) / 8),
            Kind::Number => e,
            Kind::Name => 0,
        }
    }
}

// A byte of a slice that is cut off.
fn cut_byte(s: &[u8], i: usize, until: usize) -> u64
    requires { until ≤ length s.now }
    ensures answer { result ≡ get_or (take until s.now) i 0 }
    ensures bound { result < 256 }
{
    if i < until {
        return u64::from(s[i]);
    }
    0
}

// A byte of the image with a part of the sheet laid over it.
fn over_byte(image: &[u8], sheet: &[u8], at: usize, from: usize, until: usize, i: usize) -> u64
    requires ordered { from ≤ until }
    requires inside { until ≤ length sheet.now }
    requires laid { at + (until - from) ≤ length image.now }
    requires read { i < length image.now }
    ensures answer { result ≡ get_or (over image.now sheet.now at from until) i 0 }
    ensures bound { result < 256 }
{
    if i < at {
        return u64::from(image[i]);
    }
    let k = i - at;
    if k < until - from {
        return u64::from(sheet[from + k]);
    }
    u64::from(image[i])
}

// An extent that keeps to an image and a sheet, in which its words are read.
#[derive(Clone, Copy)]
struct Source<'a> {
    image: &'a [u8],
    sheet: &'a [u8],
    extent: &'a Extent,
    ghost good: { Good (length image.now) (length sheet.now) extent.now },
}

impl Source<'_> {
    // Where word w is read in the extent's text.
    fn read_at(&self, w: usize) -> usize
        requires copies { self.now.extent.now.kind ≡ Kind.Number → ⊥ }
        requires word { w < self.now.extent.now.words }
        ensures { result ≡ source_of self.now.extent.now w }
    {
        match self.extent.kind {
            Kind::Name => self.extent.place(w),
            _ => self.extent.from + 8 * w,
        }
    }

    // A byte of that text.
    fn byte(&self, i: usize) -> u64
        requires copies { self.now.extent.now.kind ≡ Kind.Number → ⊥ }
        requires read { self.now.extent.now.kind ≡ Kind.Name → i < length self.now.image.now }
        ensures answer { result ≡ get_or (text_of self.now.sheet.now self.now.image.now self.now.extent.now) i 0 }
        ensures bound { result < 256 }
    {
        let extent = self.extent;
        match extent.kind {
            Kind::Copy => cut_byte(self.image, i, extent.until),
            Kind::Data => cut_byte(self.sheet, i, extent.until),
            Kind::Number => unreachable!(),
            Kind::Name => over_byte(
                self.image,
                self.sheet,
                extent.value as usize,
                extent.from,
                extent.until,
                i,
            ),
        }
    }

    // A number, or a word whole before the cut.
    fn near_word(&self, w: usize) -> u64
        requires near { Near self.now.extent.now w }
        ensures { result ≡ word_of self.now.sheet.now self.now.image.now self.now.extent.now w }
    {
        let from = self.extent.from;
        match self.extent.kind {
            Kind::Copy => u64_at(self.image, from + 8 * w),
            Kind::Data => u64_at(self.sheet, from + 8 * w),
            Kind::Number => self.extent.value,
            Kind::Name => unreachable!(),
        }
    }

    // Any word.
    fn any_word(&self, w: usize) -> u64
        requires word { w < self.now.extent.now.words }
        ensures { result ≡ word_of self.now.sheet.now self.now.image.now self.now.extent.now w }
    {
        match self.extent.kind {
            Kind::Number => self.extent.value,
            _ => far_word(self.image, self.sheet, self.extent, w),
        }
    }
}

// Any word that is no number, byte by byte: no eight bytes stand anywhere that `from_le_bytes` could take, since each is of the image, of
// the sheet or behind a cut. Out of line: inlined, it takes the registers from the loop over a name's words, which
// then takes a tenth longer. It takes the parts of a source, which go in registers: as a method it takes that loop a tenth longer
// too, since each word's source is written to memory.
#[inline(never)]
fn far_word(image: &[u8], sheet: &[u8], extent: &Extent, w: usize) -> u64
    requires good { Good (length image.now) (length sheet.now) extent.now }
    requires copies { extent.now.kind ≡ Kind.Number → ⊥ }
    requires word { w < extent.now.words }
    ensures { result ≡ le 8 (text_of sheet.now image.now extent.now) (source_of extent.now w) }
{
    let source = Source {
        image,
        sheet,
        extent,
    };
    let at = source.read_at(w);
    let mut v = 0;
    for k in (0..8).rev() {
        v = source.byte(at + k) + 256 * v;
    }
    v
}

// The next store: word w of the extent, which is v. Nothing else writes the image. The contract alone needs the sheet, to say
// which word that is. The theorems one_store and each-store are about these clauses, so they name each part, and so do those of
// the loops that call it.
pub(crate) fn next_store(image: &mut [u8], sheet: &[u8], extent: Extent, w: usize, v: u64)
    requires good { Good (length image.old) (length sheet.now) extent }
    requires word { w < extent.words }
    requires value { v ≡ word_of sheet.now image.old extent w }
    ensures next { image.new
        ≡ stored image.old (place_of extent w) (le_bytes 8 (word_of sheet.now image.old extent w)) }
{
    put_word(image, extent.place(w), v);
}

// The n stores of an extent of zeros from word w on. The compiler knows the number here, and makes a memset of the loop.
fn stores_of_zeros(image: &mut [u8], sheet: &[u8], extent: Extent, w: usize, n: usize)
    requires good { Good (length image.old) (length sheet.now) extent }
    requires words { w + n ≤ extent.words }
    requires number { extent.kind ≡ Kind.Number }
    requires zero { extent.value ≡ 0 }
    ensures { image.new ≡ exec sheet.now image.old (tasks_from extent w n) }
{
    for i in w..w + n {
        next_store(image, sheet, extent, i, 0);
    }
}

// The n stores of any other extent from word w on: a loop for the near words, which moves blocks, and one for those behind them.
fn other_stores(image: &mut [u8], sheet: &[u8], extent: Extent, w: usize, n: usize)
    requires good { Good (length image.old) (length sheet.now) extent }
    requires words { w + n ≤ extent.words }
    ensures { image.new ≡ exec sheet.now image.old (tasks_from extent w n) }
{
    let e = w + n;
    let f = extent.near_count(e).max(w);
    for i in w..f {
        let source = Source {
            image,
            sheet,
            extent: &extent,
        };
        let near = source.near_word(i);
        next_store(image, sheet, extent, i, near);
    }
    for i in f..e {
        let source = Source {
            image,
            sheet,
            extent: &extent,
        };
        let far = source.any_word(i);
        next_store(image, sheet, extent, i, far);
    }
}

// The n stores of an extent from word w on. Public: its clauses stay.
pub fn stores(image: &mut [u8], sheet: &[u8], extent: Extent, w: usize, n: usize)
    requires good { Good (length image.old) (length sheet.now) extent }
    requires words { w + n ≤ extent.words }
    ensures { image.new ≡ exec sheet.now image.old (tasks_from extent w n) }
{
    match extent {
        Extent {
            kind: Kind::Number,
            value: 0,
            ..
        } => stores_of_zeros(image, sheet, extent, w, n),
        _ => other_stores(image, sheet, extent, w, n),
    }
}
