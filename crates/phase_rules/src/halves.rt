//! Where the second half of a group stands: the members whose matrix has its first entry that is not 0 below 0. Each of them has
//! the opposite matrix of an earlier one, if the group has the matrix -1.
ghost use Rattle.std.specs.Prelude.{◌≡◌, ◌<◌, ◌≤◌, false, IsTrue, length};
ghost use Rattle.phase_rules.specs.Halves.{AreBelow, HasNoEarlierOpposite};

use group_closure::Group;

/// True only where there is a member at i and none before it has the opposite matrix, and false only where all from there on are
/// of the second half.
pub fn stands_first(group: &Group, i: u8) -> bool
    ensures within { IsTrue result → i < length group.now }
    ensures first { IsTrue result → HasNoEarlierOpposite group.now i }
    ensures behind { result ≡ false → AreBelow group.now i }
{
    if u16::from(i) >= group.len() {
        return false;
    }
    match group.opposite_run(i) {
        Some(opposite) if opposite < i => false,
        _ => true,
    }
}
