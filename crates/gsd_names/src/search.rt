// A name sought among those listed.
ghost use Rattle.std.specs.Prelude.{◌≡◌, ◌<◌, MatchOption};
ghost use Rattle.gsd_format.specs.Bytes.{same};
ghost use Rattle.gsd_format.specs.Names.{index_of};
ghost use Rattle.gsd_names.specs.NameLists.{names_in};

use crate::names::Names;

// Names often have their front in common, so the last byte is looked at first.
pub fn same_name(a: &[u8], b: &[u8]) -> bool
    ensures { result ≡ same a.now b.now }
{
    let n = a.len();
    if n != b.len() {
        return false;
    }
    if n == 0 {
        return true;
    }
    if a[n - 1] != b[n - 1] {
        return false;
    }
    gsd_bytes::same_part(a, 0, b, 0, n)
}

impl Names<'_> {
    // The id of a name, where it is listed.
    pub fn id_of(&self, name: &[u8]) -> Option<usize>
        ensures { MatchOption result
            (self.now.count ≡ index_of name.now (names_in self.now.v10 self.now.image.now self.now.starts.now self.now.count))
            (λ i. (i < self.now.count) × (i ≡ index_of name.now (names_in self.now.v10 self.now.image.now self.now.starts.now self.now.count))) }
    {
        for i in 0..self.count {
            if same_name(name, self.bytes(i)) {
                return Some(i);
            }
        }
        None
    }
}
