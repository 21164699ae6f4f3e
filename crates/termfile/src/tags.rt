// Refusal 4: the tags alone.
ghost use Rattle.std.specs.Prelude.{◌≡◌};
ghost use Rattle.termfile.specs.File.{known};

use crate::parts::Parts;

// Whether every tag is 0, 1 or 2.
pub fn tags_known(parts: Parts) -> bool
    ensures { result ≡ known parts.entry.tags.now }
{
    parts.tags.iter().all(|tag| *tag <= 2)
}
