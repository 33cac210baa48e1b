// Two equal names sought among those listed: by their prints, then by their bytes.
ghost use Rattle.std.specs.Prelude.{◌≡◌, ◌≤◌};
ghost use Rattle.gsd_format.specs.Bytes.{same};
ghost use Rattle.gsd_format.specs.Names.{bytes_of};
ghost use Rattle.gsd_format.specs.Opening.{most_names, twins};
ghost use Rattle.gsd_names.specs.NameLists.{part_at, names_in};
ghost use Rattle.gsd_names.specs.NamePrints.{Telling, Paired};

use crate::names::Names;
use crate::prints::{Print, Small, Whole, echoed, name_prints};
use crate::search::same_name;
use gsd_bytes::MOST_NAMES;

// Few and short names, as a cabinet has.
const FEW_NAMES: usize = 16;

const FEW_BYTES: usize = 1024;

// Are the i-th and the j-th name equal? The print is looked at before the bytes.
fn are_twins(names: &Names<'_>, prints: &[u32], i: usize, j: usize) -> bool
    requires { Paired names.now.v10 names.now.image.now names.now.starts.now names.now.count prints.now i j }
    ensures { result ≡ same (bytes_of names.now.image.now (part_at names.now.v10 names.now.starts.now i))
        (bytes_of names.now.image.now (part_at names.now.v10 names.now.starts.now j)) }
{
    if prints[i] != prints[j] {
        return false;
    }
    same_name(names.bytes(i), names.bytes(j))
}

// Are two of the names equal? Left by a label at the first equal pair.
fn has_twins(names: &Names<'_>, prints: &[u32]) -> bool
    requires { Telling names.now.v10 names.now.image.now names.now.starts.now names.now.count prints.now }
    ensures { result ≡ twins (names_in names.now.v10 names.now.image.now names.now.starts.now names.now.count) }
{
    let mut found = false;
    'pairs: for i in 0..names.count {
        if echoed(prints, i, names.count) {
            for j in i + 1..names.count {
                if are_twins(names, prints, i, j) {
                    found = true;
                    break 'pairs;
                }
            }
        }
    }
    found
}

// The same, with a print of each of at most N names.
fn twins_by<P: Print, const N: usize>(names: &Names<'_>) -> bool
    requires few { names.now.count ≤ N }
    requires short { N ≤ most_names }
    ensures { result ≡ twins (names_in names.now.v10 names.now.image.now names.now.starts.now names.now.count) }
{
    let mut prints = [0u32; N];
    name_prints::<P>(names, &mut prints);
    has_twins(names, &prints)
}

// Are two of the names equal, which have so many bytes in all? Many or long ones by their fingerprints, so that each name is
// read once; others by sizes and last bytes: an ordinary lookup pays for no fingerprint, and for no long array.
pub(crate) fn any_twins(names: &Names<'_>, size: usize) -> bool
    requires { names.now.count ≤ most_names }
    ensures { result ≡ twins (names_in names.now.v10 names.now.image.now names.now.starts.now names.now.count) }
{
    if FEW_NAMES < names.count || FEW_BYTES < size {
        return twins_by::<Whole, MOST_NAMES>(names);
    }
    twins_by::<Small, FEW_NAMES>(names)
}
