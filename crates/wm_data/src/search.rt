//! Where the entry of a key stands.
ghost use Rattle.std.specs.Prelude.{map, IfOk, IfErr};
ghost use Rattle.wm_collections.specs.Lists.{AscendByBytes};
ghost use Rattle.wm_data.specs.Entries.{IsFoundAt, IsMissingAt};

use crate::data::DataEntry;

/// Where the entry of a key stands among entries in the order of their keys, or else where it would.
pub fn search(entries: &[DataEntry], key: &str) -> Result<usize, usize>
    requires { AscendByBytes (map (λ entry. entry.key) entries.now) }
    ensures found { IfOk result (IsFoundAt key.now entries.now) }
    ensures missing { IfErr result (IsMissingAt key.now entries.now) }
{
    entries.binary_search_by(|entry| entry.key.as_str().cmp(key))
}
