//! Whether a half may hold the actions of a batch.

ghost use Rattle.std.specs.Prelude.{◌≡◌, ◌↔◌, IsTrue};
ghost use Rattle.std.specs.List.{list_all};
ghost use Rattle.alm_model.specs.Judging.{accepted_of};
ghost use Rattle.alm_codec.specs.Versions.{AreBorne};
ghost use Rattle.alm_keeper.specs.Batch.{bears_entry};

use alm_codec::Version;
use alm_types::{Entry, Verdict};

/// Whether an entry isn't accepted, or a version has its action.
fn bears_entry(version: Version, entry: &Entry) -> bool
    ensures { result ≡ bears_entry version entry.now }
{
    match &entry.verdict {
        Verdict::Accepted(action) => version.bears(action),
        Verdict::Refused(_, _) => true,
    }
}

/// Whether each entry passes.
fn bears_each(version: Version, entries: &[Entry]) -> bool
    ensures { result ≡ list_all (bears_entry version) entries.now }
{
    entries.iter().all(|entry| bears_entry(version, entry))
}

/// Whether a version has all accepted actions of these entries, as all but the first have.
#[tactic(auto, using(crate::proofs::Borne::all_borne, crate::proofs::Borne::borne_all, crate::proofs::Borne::second_bears, crate::proofs::Borne::third_bears,),)]
pub fn bears_all(version: Version, entries: &[Entry]) -> bool
    ensures { IsTrue result ↔ AreBorne version (accepted_of entries.now) }
{
    match version {
        Version::V01 => bears_each(version, entries),
        Version::V02 | Version::V03 => true,
    }
}
