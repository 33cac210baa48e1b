// The sheet of one row that a file becomes.
ghost use Rattle.std.specs.Prelude.{◌≡◌, ◌≤◌, ◌<◌, length};
ghost use Rattle.gsd_format.specs.Bytes.{stored};
ghost use Rattle.gsd_rawarray.specs.Requests.{raw_table, raw_sheet, read_test};
ghost use Rattle.gsd_rawarray.specs.Heads.{Said};

use crate::refused::Head;
use gsd_bytes::{copy_part, put_half, put_text, put_word};

// The count, and the table's row for a name of so many bytes.
fn put_table(file: &[u8], head: Head, size: usize, sheet: &mut [u8])
    requires said { Said file.now head }
    requires short { size < 256 }
    requires inside { 20 ≤ length sheet.old }
    ensures { sheet.new ≡ stored sheet.old 0 (raw_table file.now size) }
{
    put_half(sheet, 0, 1);
    put_word(sheet, 4, head.rows);
    put_half(sheet, 12, head.columns);
    put_half(sheet, 16, u64::from(head.kind) + 256 * size as u64);
}

// The sheet goes into a slice of its length.
pub fn put_sheet(file: &[u8], head: Head, name: &[u8], sheet: &mut [u8])
    requires said { Said file.now head }
    requires passed { read_test file.now name.now (length sheet.old) ≡ 0 }
    ensures { sheet.new ≡ raw_sheet file.now name.now }
{
    put_table(file, head, name.len(), sheet);
    put_text(sheet, 20, name);
    copy_part(sheet, 20 + name.len(), file, head.start, head.size);
}
