ghost use Rattle.std.specs.Prelude.{◌≡◌};
ghost use Rattle.disk.specs.Disk.{first_sync};
ghost use Rattle.disk.specs.FirstSyncs.{noted};

use std::snapshot::Snapshot;

/// The first sync since the attaching that succeeded.
#[derive(Drop)]
pub(crate) struct Noted {
    moment: usize,
    content: Snapshot<Vec<u8>>,
    faults: u64,
}

/// Notes a sync that succeeded, where it is the first.
pub(crate) fn note(start: &mut Option<Noted>, moment: usize, bytes: &Vec<u8>, faults: u64)
    ensures { noted start.new ≡ first_sync (noted start.old) moment bytes.now.items faults }
{
    if start.is_none() {
        *start = Some(Noted {
            moment,
            content: Snapshot::of(bytes),
            faults,
        });
    }
}
