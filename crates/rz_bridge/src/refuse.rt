//! What a writer refuses: a fork that is too long, a bad name; changed only with `specs/Faults`.

ghost use Rattle.std.specs.Prelude.{◌≡◌, ◌≤◌, length, IfNone, IfSome};
ghost use Rattle.rz_bridge.specs.Faults.{fork_too_long, bad_name, forks_refused, file_refused, IsSayable};

use crate::fault::{BridgeFault, fault_at};
use crate::file::MacFile;
use rz_core::Bytes;

/// The most bytes of a fork that is written.
const LONGEST_FORK: u64 = 33_554_432;

/// The most bytes of a name in MacBinary and BinHex.
const LONGEST_NAME: u64 = 63;

/// The longest length that a fault keeps.
const LAST_LENGTH: u64 = (1 << 63) - 1;

/// ForkTooLong.
#[tactic(auto, unfolding(crate::specs::Faults::fork_too_long))]
fn fork_too_long(fork: &Bytes) -> Option<BridgeFault>
    ensures rule { result ≡ fork_too_long fork.now }
    ensures within { IfNone result (length fork.now ≤ 33554432) }
    ensures sayable { IfSome result IsSayable }
{
    if LONGEST_FORK < fork.len() {
        return Some(fault_at(428, 0, fork.len().min(LAST_LENGTH)));
    }
    None
}

/// BadName.
#[tactic(auto, unfolding(crate::specs::Faults::bad_name))]
fn bad_name(name: &Bytes) -> Option<BridgeFault>
    ensures rule { result ≡ bad_name name.now }
    ensures some { IfNone result (1 ≤ length name.now) }
    ensures within { IfNone result (length name.now ≤ 63) }
    ensures sayable { IfSome result IsSayable }
{
    if name.len() < 1 || LONGEST_NAME < name.len() {
        return Some(fault_at(425, 0, name.len().min(LAST_LENGTH)));
    }
    None
}

/// A fork that is too long, the data fork first.
#[tactic(auto, unfolding(crate::specs::Faults::forks_refused))]
pub fn forks_refused(file: &MacFile) -> Option<BridgeFault>
    ensures rule { result ≡ forks_refused file.now }
    ensures data_fork { IfNone result (length file.now.data_fork ≤ 33554432) }
    ensures res_fork { IfNone result (length file.now.res_fork ≤ 33554432) }
    ensures sayable { IfSome result IsSayable }
{
    if let Some(fault) = fork_too_long(&file.data_fork) {
        return Some(fault);
    }
    fork_too_long(&file.res_fork)
}

/// Why a file can't be written in another form: a bad name, and then a fork that is too long; none for every other
/// file.
#[tactic(auto, unfolding(crate::specs::Faults::file_refused))]
pub fn file_refused(file: &MacFile) -> Option<BridgeFault>
    ensures rule { result ≡ file_refused file.now }
    ensures some { IfNone result (1 ≤ length file.now.name) }
    ensures name { IfNone result (length file.now.name ≤ 63) }
    ensures data_fork { IfNone result (length file.now.data_fork ≤ 33554432) }
    ensures res_fork { IfNone result (length file.now.res_fork ≤ 33554432) }
    ensures sayable { IfSome result IsSayable }
{
    if let Some(fault) = bad_name(&file.name) {
        return Some(fault);
    }
    forks_refused(file)
}
