//! The permissions of a file that takes the place of another.
ghost use Rattle.std.specs.Prelude.{◌≡◌};
ghost use Rattle.smap_system.specs.Rights as spec;

/// What all may do of what the group and all others may.
fn shared(mode: u32) -> u32
    ensures { result ≡ spec.shared mode }
{
    mode & (mode >> 3) & 0o7
}

/// The mode of a file that takes the place of one with this mode, by whether it could be given the other's
/// owner and group: with both all twelve bits, else no bit that runs a program as its owner or group. Without
/// the group, whose members aren't the same then, its class and the others may do what both could.
pub(crate) fn rights(mode: u32, keeps_owner: bool, keeps_group: bool) -> u32
    ensures { result ≡ spec.rights mode keeps_owner keeps_group }
{
    if !keeps_group {
        return (mode & 0o700) | (shared(mode) << 3) | shared(mode);
    }
    if keeps_owner {
        mode & 0o7777
    } else {
        mode & 0o777
    }
}
