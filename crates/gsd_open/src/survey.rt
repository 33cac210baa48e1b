// An image opened once: why it is refused, or all that a lookup or an append needs of it.
ghost use Rattle.std.specs.Prelude.{◌≡◌, ◌+◌, length, IfOk};
ghost use Rattle.gsd_format.specs.Names.{name_parts, names_of};
ghost use Rattle.gsd_format.specs.Answers.{refused};
ghost use Rattle.gsd_format.specs.Opening.{most_names, verdict};
ghost use Rattle.gsd_names.specs.NameLists.{parts_from, names_in};
ghost use Rattle.gsd_open.specs.Surveys.{Laid, Surveyed};

use crate::header::{check_blocks, check_header, layout_of};
use crate::index::{Placed, frames_to};
use gsd_bytes::is_10;
use gsd_format::{Layout, Refusal};
use gsd_names::{NameList, Names, PLACES, checked_names};

// What is found of an image that opens: where the blocks lie, the name list, the counts of entries and frames, and where the
// last of the chunks ends.
#[derive(Clone, Copy)]
pub struct Survey {
    pub layout: Layout,
    pub names: NameList,
    pub entries: u64,
    pub frames: u64,
    pub chunks_end: u64,
}

impl Survey {
    // The image's names, by the places that its opening kept.
    pub fn listed<'a>(&self, image: &'a [u8], starts: &'a [u32; PLACES]) -> Names<'a>
        requires { Surveyed image.now starts.now self.now }
        ensures count { result.count ≡ self.now.names.count }
        ensures names { names_in result.v10 result.image.now result.starts.now result.count ≡ names_of image.now }
        ensures parts { parts_from result.v10 result.starts.now 0 result.count ≡ name_parts image.now }
    {
        Names {
            image,
            starts,
            v10: is_10(self.layout.version),
            count: self.names.count,
        }
    }
}

// The name list and the entry list, where header and blocks are good.
fn survey_lists(image: &[u8], layout: Layout, starts: &mut [u32; PLACES]) -> Result<Survey, Refusal>
    requires { Laid image.now layout }
    ensures number { refused result ≡ verdict image.now }
    ensures found { IfOk result (Surveyed image.now starts.new) }
{
    let names = checked_names(image, layout, starts)?;
    let placed = Placed {
        layout,
        names: names.count as u64,
    };
    let walk = placed.walk(image)?;
    Ok(Survey {
        layout,
        names,
        entries: walk.entries,
        frames: frames_to(walk.least),
        chunks_end: walk.chunks_end,
    })
}

// The only place that opens an image: every call for users starts here. The names' places go to starts, which is lent
// because an answer of its size would be copied.
pub fn survey_of(image: &[u8], starts: &mut [u32; PLACES]) -> Result<Survey, Refusal>
    ensures number { refused result ≡ verdict image.now }
    ensures found { IfOk result (Surveyed image.now starts.new) }
{
    check_header(image)?;
    let layout = layout_of(image);
    check_blocks(layout)?;
    survey_lists(image, layout, starts)
}
