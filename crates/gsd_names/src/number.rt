// The names of a block with the opening's numbers 9 to 11, by the names found.
ghost use Rattle.std.specs.Prelude.{◌≡◌, ◌+◌, ◌*◌, ◌≤◌, length, IfOk};
ghost use Rattle.gsd_format.specs.Header.{greatest_length};
ghost use Rattle.gsd_format.specs.Opening.{most_names, names_test};
ghost use Rattle.gsd_format.specs.Names.{block_names};
ghost use Rattle.gsd_format.specs.Answers.{refused};
ghost use Rattle.gsd_names.specs.NameLists.{NamesFound};

use crate::list::{NameList, PLACES, name_list};
use crate::names::Names;
use crate::twins::any_twins;
use gsd_bytes::{MOST_NAMES, is_10};
use gsd_format::{Layout, Refusal};

// The names of the block, or 9, 10, 11.
pub fn checked_names(
    image: &[u8],
    l: Layout,
    starts: &mut [u32; PLACES],
) -> Result<NameList, Refusal>
    requires inside { l.namelist + 64 * l.segments ≤ length image.now }
    requires short { length image.now ≤ greatest_length }
    ensures number { refused result ≡ names_test image.now l (block_names image.now l) }
    ensures found { IfOk result (NamesFound image.now l starts.new) }
{
    let list = name_list(image, l, starts);
    if list.open {
        return Err(Refusal::UnclosedName);
    }
    if MOST_NAMES < list.count {
        return Err(Refusal::ManyNames);
    }
    let names = Names {
        image,
        starts: &*starts,
        v10: is_10(l.version),
        count: list.count,
    };
    if any_twins(&names, list.list_end - l.namelist as usize) {
        return Err(Refusal::EqualNames);
    }
    Ok(list)
}
