//! Reads of a pager that is asked only sometimes.
ghost use Rattle.std.specs.Prelude.{◌≡◌, ◌<◌, ◌&&◌, true, false, [], length, get_or};
ghost use Rattle.shm_pager_core.specs.Pages.{pager_seen, served, TriesRead};

use shm_base::PAGE_BYTES;
use shm_pager_core::{Pager, try_read};

/// As [`try_read`]; if `asked` is false, the pager is not called, and the read fails.
pub(crate) fn read_if<P: Pager>(
    asked: bool,
    pager: &mut P,
    slot: u32,
    page: &mut [u8; PAGE_BYTES],
) -> bool
    requires { slot < length (P.content pager.old) }
    ensures asked { let view = pager_seen P.content P.failed P.most P.calls in
        asked ≡ true → TriesRead (view pager.old) (view pager.new) }
    ensures unasked { asked ≡ false → pager.new ≡ pager.old }
    ensures content { P.content pager.new ≡ P.content pager.old }
    ensures served { let view = pager_seen P.content P.failed P.most P.calls in
        result ≡ (asked && served (view pager.old) (view pager.new)) }
    ensures page { result ≡ true → get_or (P.content pager.old) slot [] ≡ page.new }
{
    asked && try_read(pager, slot, page).is_ok()
}
