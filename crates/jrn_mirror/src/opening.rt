//! An opening of both disks as one.
ghost use Rattle.std.specs.Prelude.{◌≡◌, true, is_some, IsErr, IfOk, OnErr};
ghost use Rattle.gw_base.specs.Setup.{IsSetup};
ghost use Rattle.jrn_mirror.specs.PairObserved.{PairObserved, IfLogged, PairGrows};
ghost use Rattle.jrn_mirror.specs.MirrorObserved.{IsOpenRefused};
ghost use Rattle.jrn_mirror.specs.inner.Copying.{AreLengths};
ghost use Rattle.jrn_mirror.specs.inner.Halves.{AreGone, StayGone};
ghost use Rattle.jrn_mirror.specs.inner.Opening.{CanOpen, EndsAll, HaveSameFile, Opened, there_looks};

use crate::copying::copy_apart;
use crate::halves::{length_half, sync_there};
use crate::{Half, Pair};
use gw_base::Setup;
use gw_site::Failed;

/// The lengths of the files on the disks that are there, none of a disk that isn't; where none is, the first is asked once
/// more, which fails.
fn lengths_there<P: Pair>(pair: &mut P, first: bool, second: bool) -> (Option<u64>, Option<u64>)
    requires { AreGone (P.observed pair.old) first second }
    ensures turns { PairGrows (P.observed pair.old) (P.observed pair.new) (λ turns. turns ≡ there_looks first second (is_some result.0) (is_some result.1)) }
    ensures gone { AreGone (P.observed pair.new) (is_some result.0) (is_some result.1) }
    ensures stay { StayGone first second (is_some result.0) (is_some result.1) }
    ensures lengths { IfLogged (P.observed pair.old) (λ log. AreLengths log result.0 result.1) }
{
    match (first, second) {
        (true, true) => {
            let first_size = length_half(pair, Half::First);
            let second_size = length_half(pair, Half::Second);
            (first_size, second_size)
        }
        (true, false) => (length_half(pair, Half::First), None),
        (false, true) => (None, length_half(pair, Half::Second)),
        (false, false) => {
            length_half(pair, Half::First);
            (None, None)
        }
    }
}

/// Syncs the disks that are there, and nothing where none is.
fn sync_left<P: Pair>(pair: &mut P, first: bool, second: bool) -> (bool, bool)
    requires gone { AreGone (P.observed pair.old) first second }
    requires copied { first ≡ true → second ≡ true → HaveSameFile (P.observed pair.old) }
    ensures { EndsAll (P.observed pair.old) (P.observed pair.new) first second result.0 result.1 }
{
    if first | second {
        sync_there(pair, first, second)
    } else {
        (false, false)
    }
}

/// Opens the pair, and makes the disks that are there one: the longer file is copied, and each disk is synced. Says which
/// disks are there after that; an error, if the pair could not be opened.
pub(crate) fn open_there<P: Pair>(
    pair: &mut P,
    setup: &Setup,
    first: bool,
    second: bool,
) -> Result<(bool, bool), Failed>
    requires setup { IsSetup setup.now }
    requires can { CanOpen (P.observed pair.old) first second }
    ensures opened { IfOk result (λ there. Opened (P.observed pair.old) (P.observed pair.new) setup.now there.0 there.1) }
    ensures refused { OnErr result (IsOpenRefused (P.observed pair.old) (P.observed pair.new)) }
    ensures dark { (P.observed pair.old).dark ≡ true → IsErr result }
{
    match pair.open(setup) {
        Ok(()) => {}
        Err(Failed) => return Err(Failed),
    }
    let (first_size, second_size) = lengths_there(pair, first, second);
    let (first, second) = copy_apart(pair, first_size, second_size);
    Ok(sync_left(pair, first, second))
}
