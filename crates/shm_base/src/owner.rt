ghost use Rattle.std.specs.Prelude.{◌≡◌};
ghost use Rattle.shm_base.specs.Permission as flat;

/// The effective ids of a process.
#[derive(Clone, Copy, Debug, PartialEq, Eq)]
pub struct Cred {
    pub uid: u32,
    pub gid: u32,
}

/// Owner and creator of a segment, and its nine mode bits.
#[derive(Clone, Copy, Debug, PartialEq, Eq)]
pub struct Perm {
    pub uid: u32,
    pub gid: u32,
    pub cuid: u32,
    pub cgid: u32,
    pub mode: u16,
}

/// The permissions that an access asks for.
#[derive(Clone, Copy, Debug, PartialEq, Eq)]
pub struct Want {
    pub read: bool,
    pub write: bool,
    pub execute: bool,
}

fn triple(cred: &Cred, perm: &Perm) -> u16
    ensures { result ≡ flat.triple cred.now perm.now }
{
    if cred.uid == perm.uid || cred.uid == perm.cuid {
        perm.mode / 64 % 8
    } else if cred.gid == perm.gid || cred.gid == perm.cgid {
        perm.mode / 8 % 8
    } else {
        perm.mode % 8
    }
}

/// Whether the permissions allow what is wanted (sysvipc(7)). The owner's bits apply if the user is owner or
/// creator, else the group's bits if the group is that of either, else the other bits. User 0 passes every
/// test (this project's profile).
pub fn grants(cred: &Cred, perm: &Perm, want: Want) -> bool
    ensures { result ≡ flat.grants cred.now perm.now want }
{
    if cred.uid == 0 {
        return true;
    }
    let bits = triple(cred, perm);
    (!want.read || bits / 4 % 2 == 1)
        && (!want.write || bits / 2 % 2 == 1)
        && (!want.execute || bits % 2 == 1)
}
