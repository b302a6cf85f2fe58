//! POIIDs that name two terminals.
ghost use Rattle.std.specs.Prelude.{◌≡◌, [], map};
ghost use Rattle.std.specs.List.{list_any};
ghost use Rattle.std.specs.Str.{bytes_eq};
ghost use Rattle.gw_config.specs.Faults.{repeated_after};

use gw_base::{Ident, Pt};

/// The first POIID that a terminal before its own has too.
pub(crate) fn first_repeated(pts: &[Pt]) -> Option<Ident<40>>
    ensures { result ≡ repeated_after [] (map (λ pt. pt.poi) pts.now) }
{
    for (index, pt) in pts.iter().enumerate() {
        if have_poi(&pts[..index], &pt.poi) {
            return Some(pt.poi);
        }
    }
    None
}

/// Whether one of these terminals has this POIID.
fn have_poi(pts: &[Pt], poi: &Ident<40>) -> bool
    ensures { result ≡ list_any (λ pt. bytes_eq poi.now pt.poi) pts.now }
{
    pts.iter().any(|pt| *poi == pt.poi)
}
