//! The numbers of profiles.
ghost use Rattle.std.specs.Prelude.{◌≡◌, ◌<◌};
ghost use Rattle.c_profiles.specs.Numbers.{has_bit, linux_profile, profile_from_c};

use table_words::{Profile, Release, linux_guest, linux_host, linux_hypervisor, model};

/// Whether a number has a bit, by the bit's value.
fn is_set(number: u64, bit: u64) -> bool
    requires { 0 < bit }
    ensures { result ≡ has_bit number bit }
{
    number / bit % 2 == 1
}

/// Linux' profile of a tree: the host's and a guest's have no hVHE, the hypervisor's no FWB.
fn linux(tree: u64, release: Release, fwb: bool, hvhe: bool, lpa2: bool) -> Option<Profile>
    ensures { result ≡ linux_profile tree release fwb hvhe lpa2 }
{
    if tree == 1 {
        if fwb {
            return None;
        }
        return Some(linux_hypervisor(release, hvhe, lpa2));
    }
    if hvhe {
        return None;
    }
    if tree == 0 {
        return Some(linux_host(release, fwb, lpa2));
    }
    Some(linux_guest(release, fwb, lpa2))
}

/// The profile of a tree (0 the host's, 1 the hypervisor's, else a guest's) that has a number: 0 the model's own words; else the
/// sum of 1 for Linux 6.12 or 2 for 7.3, and of 16 with FWB, 32 with hVHE, 64 with LPA2. None if the tree has no such profile.
pub fn profile_of(tree: u64, number: u64) -> Option<Profile>
    ensures { result ≡ profile_from_c tree number }
{
    if number == 0 {
        return Some(model());
    }
    if number >= 128 {
        return None;
    }
    let fwb = is_set(number, 16);
    let hvhe = is_set(number, 32);
    let lpa2 = is_set(number, 64);
    match number % 16 {
        1 => linux(tree, Release::V6, fwb, hvhe, lpa2),
        2 => linux(tree, Release::V7, fwb, hvhe, lpa2),
        _ => None,
    }
}
