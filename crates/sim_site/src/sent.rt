//! What a send takes of its bytes.
ghost use Rattle.std.specs.Prelude.{◌≡◌};
ghost use Rattle.gw_script.specs.site.Hazards.{sent_of};

/// What a send takes of these bytes: all, or where it fails the first so many.
pub(crate) fn taken(bytes: &[u8], most: Option<u64>) -> &[u8]
    ensures { result.now ≡ sent_of most bytes.now }
{
    match most {
        Some(most) if most < bytes.len() as u64 => &bytes[..most as usize],
        _ => bytes,
    }
}
