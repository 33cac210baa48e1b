// The names listed in an image, by the places that are kept of them: what is searched, printed and compared.
ghost use Rattle.std.specs.Prelude.{◌≡◌, ◌<◌, length};
ghost use Rattle.gsd_format.specs.Names.{bytes_of};
ghost use Rattle.gsd_names.specs.NameLists.{start_at, part_at, Spans};

use crate::list::{PLACES, SEGMENT};
use gsd_format::Part;

// Each of the names lies in the image. Whether the image is of 1.0 is a fact of it and no choice of the caller's, and a Bool
// because start_at and part_at take one.
#[derive(Clone, Copy)]
pub struct Names<'a> {
    pub image: &'a [u8],
    pub starts: &'a [u32; PLACES],
    pub v10: bool,
    pub count: usize,
    pub ghost spans: { Spans v10 starts.now count (length image.now) },
}

fn place(x: u32) -> usize
    ensures answer { result ≡ x }
    ensures bound { result < 4294967296 }
{
    x as usize
}

impl<'a> Names<'a> {
    // Where the i-th name starts.
    fn start(&self, i: usize) -> usize
        requires { i < self.now.count }
        ensures { result ≡ start_at self.now.v10 self.now.starts.now i }
    {
        if self.v10 {
            return place(self.starts[0]) + SEGMENT * i;
        }
        place(self.starts[i])
    }

    // Where the i-th name lies.
    pub fn part(&self, i: usize) -> Part
        requires { i < self.now.count }
        ensures { result ≡ part_at self.now.v10 self.now.starts.now i }
    {
        let start = self.start(i);
        let next = place(self.starts[i + 1]);
        Part {
            start,
            size: next - 1 - start,
        }
    }

    // The bytes of the i-th name.
    pub fn bytes(&self, i: usize) -> &'a [u8]
        requires { i < self.now.count }
        ensures { result.now ≡ bytes_of self.now.image.now (part_at self.now.v10 self.now.starts.now i) }
    {
        let start = self.start(i);
        let end = place(self.starts[i + 1]) - 1;
        &self.image[start..end]
    }
}
