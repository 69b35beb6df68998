//! Searches that begin with start prefixes.

ghost use Rattle.dp_model.specs.Dp.{Dp};
ghost use Rattle.board_laws.specs.Laws.{ExploredSettles, PartsKeep, StartsCover};

/// If nothing is open or out, each feasible solution that begins with a start prefix is at most the reach. A whole search begins with the
/// empty prefix (`explored_is_within_reach`).
pub fn explored_settles()
    ensures { (dp : Dp) → ExploredSettles dp }
{}

/// A board that is good for a whole search is good from any start prefixes. Prefixes cover the solutions that begin with one of them. A
/// cover from the empty prefix covers all solutions.
pub fn starts_cover()
    ensures { (dp : Dp) → StartsCover dp }
{}

/// If a search may go on from a list, another may go on from any part of it. A part of a sound list is sound from its own prefixes. So a
/// part needs no more trust than the whole list.
pub fn parts_keep()
    ensures { (dp : Dp) → PartsKeep dp }
{}
